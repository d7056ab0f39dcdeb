// The words of an answer, put one after another into a lent buffer. A word that has no room is left out.
#[derive(Drop)]
pub(crate) struct Answer<'a> {
    out: &'a mut [u16],
    count: usize,
}

impl<'a> Answer<'a> {
    pub(crate) fn new(out: &'a mut [u16]) -> Answer<'a> {
        Answer { out, count: 0 }
    }

    // One word.
    pub(crate) fn put(&mut self, w: u16) {
        if self.count < self.out.len() {
            self.out[self.count] = w;
            self.count += 1;
        }
    }

    // A count or a place: none is above 8191.
    pub(crate) fn put_number(&mut self, n: usize) {
        self.put((n % 65536) as u16);
    }

    // All the words of a list.
    pub(crate) fn put_all(&mut self, words: &[u16]) {
        for w in words {
            self.put(*w);
        }
    }

    // The words that were put.
    pub(crate) fn words(&self) -> &[u16] {
        &self.out[..self.count.min(self.out.len())]
    }
}
