//! A row of marks, one for each number below its length.

ghost use Rattle.std.specs.Prelude.{◌≡◌, ◌<◌, true, false, length, replicate, slice_set, slice_index_or, IfOk, if◌then◌else◌};

use crate::fault::NoMemory;
use std::alloc::Global;
use std::marker::Model;

/// A row of marks, each false or true, at places counted from 0.
#[derive(Drop)]
pub struct BitRow {
    marks: Vec<bool>,
}

impl Model for BitRow {
    ghost use Rattle.std.specs.Prelude.{List as Listed, Bool};

    ghost Value = { Listed Bool };

    ghost view = { λ a. a.marks.items };
}

impl BitRow {
    /// A row of `bits` false marks.
    pub fn new(alloc: Global, bits: u32) -> Result<BitRow, NoMemory>
        ensures { IfOk result (λ row. row ≡ replicate bits false) }
    {
        let marks = vec![in alloc; false; bits as usize]?;
        Ok(BitRow { marks })
    }

    /// The mark at place `i`.
    pub fn get(&self, i: u32) -> bool
        requires { i < length self.now }
        ensures { result ≡ slice_index_or self.now i false }
    {
        self.marks[i as usize]
    }

    /// Makes the mark at place `i` true, and leaves all others.
    pub fn set(&mut self, i: u32)
        requires { i < length self.old }
        ensures { self.new ≡ slice_set self.old i true }
    {
        self.marks[i as usize] = true;
    }

    /// Makes the mark at place `i` true where there is cause, and leaves all others.
    pub fn set_if(&mut self, i: u32, cause: bool)
        requires { i < length self.old }
        ensures { self.new ≡ (if cause then slice_set self.old i true else self.old) }
    {
        if cause {
            self.set(i);
        }
    }
}
