//! A text that grows.
ghost use Rattle.std.specs.Prelude.{◌≡◌, ◌↔◌, [], false, true, IsTrue, OnSome, IfSome};
ghost use Rattle.acc_page.specs.Written.{Adds};

use itoa::{Buffer, Integer};
use std::alloc::Global;
use std::marker::Model;

/// What is written so far, and whether memory lacked for a part of it.
#[derive(Drop)]
pub struct Page {
    bytes: Vec<u8>,
    cut: bool,
}

impl Model for Page {
    ghost use Rattle.acc_page.specs.Written.{Written};

    ghost Value = { Written };

    ghost view = { λ page. record { text = page.bytes.items; cut = page.cut } };
}

impl Page {
    /// An empty text.
    pub fn new(alloc: Global) -> Self
        ensures whole { result.cut ≡ false }
        ensures empty { result.text ≡ [] }
    {
        Page {
            bytes: Vec::new(alloc),
            cut: false,
        }
    }

    /// Writes a part. Where memory lacks, it is left out, and so is each later one.
    pub fn push(&mut self, part: &[u8])
        ensures { Adds self.old self.new part.now }
    {
        if !self.cut {
            self.cut = self.bytes.extend_from_slice(part).is_err();
        }
    }

    /// Writes a number in decimal, as a part.
    pub fn push_number<I: Integer>(&mut self, number: I)
        ensures { Adds self.old self.new (I.text number) }
    {
        self.push(Buffer::new().format(number).as_bytes());
    }

    /// Writes what another page has, and is cut where that is.
    pub fn push_page(&mut self, page: &Page)
        ensures appended { Adds self.old self.new page.now.text }
        ensures whole { self.new.cut ≡ false → page.now.cut ≡ false }
    {
        self.push(&page.bytes);
        self.cut = self.cut || page.cut;
    }

    /// Leaves out each later part, as where memory lacked.
    pub fn cut_off(&mut self)
        ensures { self.new.cut ≡ true }
    {
        self.cut = true;
    }

    /// Whether nothing was written, and nothing left out.
    pub fn is_empty(&self) -> bool
        ensures { IsTrue result ↔ ((self.now.cut ≡ false) × (self.now.text ≡ [])) }
    {
        !self.cut && self.bytes.is_empty()
    }

    /// The text, unless memory lacked.
    pub fn finish(self) -> Option<Vec<u8>>
        ensures whole { OnSome result (self.cut ≡ false) }
        ensures text { IfSome result (λ text. text.items ≡ self.text) }
    {
        if self.cut { None } else { Some(self.bytes) }
    }

    /// What was written, also where memory lacked for a later part.
    pub fn into_bytes(self) -> Vec<u8>
        ensures { result.items ≡ self.text }
    {
        self.bytes
    }
}
