// Buffers that calls write to.
ghost use Rattle.std.specs.Prelude.{◌≡◌, IfOk, vec_len};

use buffers::Looks;
use std::alloc::{AllocError, Global};

// A buffer for a call, beside what it held before.
#[derive(Drop)]
pub(crate) struct Buffer {
    pub before: Vec<u8>,
    pub after: Vec<u8>,
}

impl Buffer {
    pub(crate) fn holding(heap: Global, before: Vec<u8>) -> Result<Buffer, AllocError>
        ensures size { IfOk result (λ b. vec_len b.after ≡ vec_len before) }
        ensures same { IfOk result (λ b. b.after.items ≡ b.before.items) }
    {
        let after = Vec::from_slice(heap, before.as_slice())?;
        Ok(Buffer { before, after })
    }

    // A buffer of one octet throughout.
    pub(crate) fn filled(heap: Global, octet: u8, room: usize) -> Result<Buffer, AllocError>
        ensures size { IfOk result (λ b. vec_len b.after ≡ room) }
        ensures same { IfOk result (λ b. b.after.items ≡ b.before.items) }
    {
        Buffer::holding(heap, vec![in heap; octet; room]?)
    }

    pub(crate) fn looks(&self) -> Looks<'_>
        ensures before { result.before.now ≡ self.now.before.items }
        ensures after { result.after.now ≡ self.now.after.items }
    {
        Looks {
            before: self.before.as_slice(),
            after: self.after.as_slice(),
        }
    }
}
