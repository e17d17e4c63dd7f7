ghost use Rattle.std.specs.Prelude.{◌≡◌, min, reverse, length, IfOk};
ghost use Rattle.machine.specs.Machine.{shelve, counting};
ghost use Rattle.memory.specs.Fresh.{top_of, under_top};

use std::alloc::{AllocError, Global};
use std::marker::Model;

// The free cells, the top last: at most 256, with room for all from the start.
#[derive(Drop)]
pub struct FreeStack {
    stack: Vec<u8>,
}

// Contracts see the cells, the top first.
impl Model for FreeStack {
    ghost use Rattle.std.specs.Prelude.{ℕ, ◌≤◌, List, reverse, vec_len, vec_capacity};

    ghost Value = { List ℕ };

    ghost view = { λ free. reverse free.stack.items };

    ghost invariant = { λ free. (256 ≤ vec_capacity free.stack) × (vec_len free.stack ≤ 256) };
}

impl FreeStack {
    // The cells below a number, at most 256, with cell 0 on top.
    pub(crate) fn all(heap: Global, cells: u16) -> Result<FreeStack, AllocError>
        ensures { IfOk result (λ free. free ≡ counting 0 (min cells 256)) }
    {
        let mut stack = Vec::with_capacity(heap, 256)?;
        for cell in (0..cells.min(256)).rev() {
            stack.push_reserved(cell as u8);
        }
        Ok(FreeStack { stack })
    }

    #[tactic(auto, using(crate::proofs::Tops::top_first, crate::proofs::Tops::under_first))]
    pub(crate) fn take(&mut self) -> Option<u8>
        ensures after { self.new ≡ under_top self.old }
        ensures value { result ≡ top_of self.old }
    {
        self.stack.pop()
    }

    // A stack of 256 takes no more: there are no more cells.
    #[tactic(auto, using(crate::proofs::Tops::put_room, crate::proofs::Tops::put_full))]
    pub(crate) fn put(&mut self, c: u8)
        ensures { self.new ≡ shelve c self.old }
    {
        if self.stack.len() < 256 {
            self.stack.push_reserved(c);
        }
    }

    pub(crate) fn count(&self) -> u16
        ensures { result ≡ length self.now }
    {
        self.stack.len() as u16
    }

    pub(crate) fn cells(&self) -> &[u8]
        ensures { reverse result.now ≡ self.now }
    {
        self.stack.as_slice()
    }
}
