// Words as numbers, and by their places.
ghost use Rattle.words.specs.Plain.{ProductSays, WordAtSays};

// Two words multiplied, with nothing cut off.
pub fn product(a: u16, b: u16) -> u32
    ensures { ProductSays a b result }
{
    (a as u32) * (b as u32)
}

// The word at a place, 0 past the end.
pub fn word_at(words: &[u16], place: usize) -> u16
    ensures { WordAtSays words.now place result }
{
    words.get(place).copied().unwrap_or(0)
}
