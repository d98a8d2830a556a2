//! Cells that stand ready as text, for rows that share them.

ghost use Rattle.std.specs.Prelude.{◌≡◌, ◌+◌, ◌≤◌, IfSome, length};
ghost use Rattle.mrp_report.specs.page.Put.{IsPut};

use crate::page::put::{put_all, put_front};
use std::marker::Model;

// Cells after others, each with the comma before it, of at most 32 bytes in all. They are made once for many rows;
// contracts see them as their text.
#[derive(Drop)]
pub(crate) struct ReadyCells {
    bytes: [u8; 32],
    len: u8,
}

impl Model for ReadyCells {
    ghost use Rattle.std.specs.Prelude.{List, ℕ, ◌≤◌, take};

    ghost Value = { List ℕ };

    ghost view = { λ cells. take cells.len cells.bytes };

    ghost invariant = { λ cells. cells.len ≤ 32 };
}

impl ReadyCells {
    // Cells with this text; `None` if it has more than 32 bytes.
    pub(crate) fn of(text: &[u8]) -> Option<ReadyCells>
        ensures { IfSome result (λ cells. cells ≡ text.now) }
    {
        if text.len() > 32 {
            return None;
        }
        let mut bytes = [0; 32];
        let end = put_all(&mut bytes, 0, text);
        Some(ReadyCells {
            bytes,
            len: end as u8,
        })
    }

    // Puts the cells after others.
    #[inline(always)]
    pub(crate) fn put(&self, text: &mut [u8], at: usize) -> usize
        requires { at + 32 ≤ length text.old }
        ensures put { IsPut text.old text.new at self.now result }
        ensures near { result ≤ at + 32 }
    {
        put_front::<32>(text, at, &self.bytes, usize::from(self.len))
    }
}
