// The names that are shown for variables.
ghost use Rattle.std.specs.Prelude.{◌≡◌, ◌<◌, ◌^◌, ◌∷◌, [], length, slice_get, OnOk};
ghost use Rattle.mt_printer.specs.Chosen.{shown_names, is_one_of};
ghost use Rattle.mt_printer.specs.ScopeOf.{outer, turned};
ghost use Rattle.mt_printer.specs.TermText.{variable_text};

use mt_term::{Name, OutOfMemory};
use std::alloc::{AllocFailed, Global};
use std::marker::Model;

// The names that variables are shown by, seen with the innermost first. One that is not used shows
// none.
#[derive(Drop)]
pub(crate) struct Scope {
    shown: Vec<Option<Name>>,
}

impl Model for Scope {
    ghost use Rattle.std.specs.Prelude.{ℕ, List, Option, []};
    ghost use Rattle.mt_printer.specs.ScopeOf.{turned};

    ghost Value = { List (Option (List ℕ)) };

    ghost view = { λ s. turned s.shown.items [] };
}

impl Scope {
    // No variable.
    pub(crate) fn new(alloc: Global) -> Scope
        ensures { result ≡ [] }
    {
        Scope {
            shown: Vec::new(alloc),
        }
    }

    // How many variables there are.
    pub(crate) fn len(&self) -> usize
        ensures is { result ≡ length self.now }
        ensures small { result < 2 ^ 63 }
    {
        self.shown.len()
    }

    // One more variable.
    pub(crate) fn push(&mut self, shown: Option<Name>) -> Result<(), OutOfMemory>
        ensures { OnOk result (self.new ≡ shown ∷ self.old) }
    {
        self.shown.push(shown)?;
        Ok(())
    }

    // Without the innermost variable.
    pub(crate) fn pop(&mut self)
        ensures { self.new ≡ outer self.old }
    {
        let _ = self.shown.pop();
    }

    // The name that variable `i` is shown by; no bytes where there is none.
    pub(crate) fn name(&self, i: usize) -> &[u8]
        ensures { result.now ≡ variable_text (slice_get self.now i) }
    {
        let count = self.shown.len();
        if i >= count {
            return b"";
        }
        match &self.shown[count - 1 - i] {
            Some(name) => name.as_bytes(),
            None => b"",
        }
    }

    // Whether some variable is shown by a name.
    pub(crate) fn shows(&self, name: &[u8]) -> bool
        ensures { result ≡ is_one_of (shown_names self.now) name.now }
    {
        is_shown(&self.shown, name)
    }
}

fn is_shown(shown: &[Option<Name>], name: &[u8]) -> bool
    ensures { result ≡ is_one_of (shown_names (turned shown.now [])) name.now }
{
    for x in shown {
        if shows(x, name) {
            return true;
        }
    }
    false
}

fn shows(shown: &Option<Name>, name: &[u8]) -> bool
    ensures { result ≡ is_one_of (shown_names (shown.now ∷ [])) name.now }
{
    match shown {
        Some(x) => x.as_bytes() == name,
        None => false,
    }
}
