// The names in use.
ghost use Rattle.std.specs.Prelude.{◌≡◌, None, [], ◌∷◌, ◌++◌, length, take, IfOk, IfErr, OnOk, OnErr};
ghost use Rattle.mt_term.specs.Naming.{find};
ghost use Rattle.mt_env.specs.Names.{said, term_of};
ghost use Rattle.mt_env.specs.Refusals.{AreRefusedBy};

use crate::refs::Ref;
use crate::stops::EnvStop;
use indexmap::IndexMap;
use mt_term::OutOfMemory;
use std::alloc::{AllocFailed, Global};
use std::clone::Clone;
use std::marker::Model;

/// Names with what they stand for, oldest first.
#[derive(Drop)]
pub(crate) struct Table {
    refs: IndexMap<Vec<u8>, Ref>,
}

impl Model for Table {
    ghost use Rattle.std.specs.Prelude.{map};
    ghost use Rattle.std.specs.Coded.{coded_list};
    ghost use Rattle.mt_term.specs.DeclarationCode.{named};
    ghost use Rattle.mt_term.specs.Naming.{Naming};
    ghost use Rattle.mt_env.specs.Names.{term_of};

    ghost Value = { Naming };

    ghost coded = { coded_list named };

    ghost view = { λ t. map (λ e. (e.0.items, term_of e.1)) t.refs.entries };
}

impl Table {
    /// No name.
    pub(crate) fn new(alloc: Global) -> Table
        ensures { result ≡ [] }
    {
        Table {
            refs: IndexMap::new(alloc),
        }
    }

    /// How many names there are.
    pub(crate) fn len(&self) -> usize
        ensures { result ≡ length self.now }
    {
        self.refs.len()
    }

    /// What a name stands for.
    pub(crate) fn find(&self, name: &[u8]) -> Option<Ref>
        ensures { said result ≡ find self.now name.now }
    {
        self.refs.get(name).copied()
    }

    /// Adds a name that is not in use.
    pub(crate) fn insert(&mut self, alloc: Global, name: &[u8], r: Ref) -> Result<(), OutOfMemory>
        requires { find self.old name.now ≡ None }
        ensures ok { OnOk result (self.new ≡ self.old ++ (name.now, term_of r) ∷ []) }
        ensures err { OnErr result (self.new ≡ self.old) }
    {
        let name = name.to_vec(alloc)?;
        self.refs.insert(name, r)?;
        Ok(())
    }

    /// Goes back to the first names.
    pub(crate) fn truncate(&mut self, len: usize)
        ensures { self.new ≡ take len self.old }
    {
        self.refs.truncate(len);
    }
}

impl Clone for Table {
    fn clone(&self) -> Result<Table, OutOfMemory>
        ensures { IfOk result (λ t. t ≡ self.now) }
    {
        Ok(Table {
            refs: self.refs.clone()?,
        })
    }
}
