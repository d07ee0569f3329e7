//! A kernel that hands its calls to another one, and refuses one call of `finish`.
use mit_kernel::{Finished, Kernel};
use mit_ops::OpSpec;
use mit_rows::Row;
use std::alloc::AllocError;

/// After so many calls of `finish` the next one is refused.
#[derive(Drop)]
pub(crate) struct Refuser<K> {
    inner: K,
    left: u64,
}

impl<K: Kernel> Refuser<K> {
    pub(crate) fn new(inner: K, left: u64) -> Refuser<K> {
        Refuser { inner, left }
    }
}

impl<K: Kernel> Kernel for Refuser<K> {
    ghost meaning = { λ r. K.meaning r.inner };

    fn kind(&self) -> u8 {
        self.inner.kind()
    }

    fn begin(&mut self, spec: &OpSpec, part: u16, parts: u16) -> Result<u64, AllocError> {
        self.inner.begin(spec, part, parts)
    }

    fn feed(&mut self, slot: u64, input: u16, row: &Row) -> Result<(), AllocError> {
        self.inner.feed(slot, input, row)
    }

    fn finish(&mut self, slot: u64, out: &mut Vec<Row>) -> Result<Finished, AllocError> {
        if self.left == 0 {
            self.left = u64::MAX;
            return Err(AllocError);
        }
        self.left -= 1;
        self.inner.finish(slot, out)
    }

    fn renew(&mut self, slot: u64, keep: &[bool]) {
        self.inner.renew(slot, keep);
    }

    fn close(&mut self, slot: u64) {
        self.inner.close(slot);
    }

    fn fed(&self) -> u64 {
        self.inner.fed()
    }
}
