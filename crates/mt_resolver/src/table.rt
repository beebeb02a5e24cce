// The names of an environment.
ghost use Rattle.std.specs.Prelude.{◌≡◌, ℕ, ◌∷◌, ◌++◌, [], List, false, length, take, is_some, IfOk, OnOk, OnErr};
ghost use Rattle.mt_resolver.specs.TableOf.{AreNamesOf, Extends, FindsSame, seen_meaning, tree_meant};
ghost use Rattle.mt_term.specs.Declarations.{Declaration};
ghost use Rattle.mt_term.specs.EntryOf.{declaration_of};
ghost use Rattle.mt_term.specs.Naming.{find, naming_constructors, naming_entry};

use crate::meanings::Meaning;
use indexmap::IndexMap;
use mt_term::{Cons, Entry, Name, OutOfMemory};
use std::alloc::{AllocFailed, Global};
use std::marker::Model;

/// The names of entries and constructors, oldest first, and what they stand for.
#[derive(Drop)]
pub struct Table {
    names: IndexMap<Vec<u8>, Meaning>,
}

impl Model for Table {
    ghost use Rattle.std.specs.Prelude.{List, map};
    ghost use Rattle.std.specs.Coded.{coded_list};
    ghost use Rattle.mt_resolver.specs.TableOf.{tree_meant};
    ghost use Rattle.mt_term.specs.DeclarationCode.{named};
    ghost use Rattle.mt_term.specs.Trees.{Bytes, Tree};

    ghost Value = { List (Bytes × Tree) };

    ghost coded = { coded_list named };

    ghost view = { λ t. map (λ e. (e.0.items, tree_meant e.1)) t.names.entries };
}

impl Table {
    /// No names.
    pub fn new(alloc: Global) -> Table
        ensures { result ≡ [] }
    {
        Table {
            names: IndexMap::new(alloc),
        }
    }

    /// What a name stands for.
    pub fn find(&self, name: &[u8]) -> Option<Meaning>
        ensures { seen_meaning result ≡ find self.now name.now }
    {
        self.names.get(name).copied()
    }

    /// Whether a name stands for something.
    pub fn is_taken(&self, name: &[u8]) -> bool
        ensures { result ≡ is_some (find self.now name.now) }
    {
        self.find(name).is_some()
    }

    /// Adds the names of an entry of this number. A name that stands for something already goes on
    /// standing for that. Where memory is wanting, no name is added.
    #[tactic(auto, using(crate::proofs::Tables::table_rules))]
    pub fn add(&mut self, alloc: Global, number: usize, entry: &Entry) -> Result<(), OutOfMemory>
        ensures ok { OnOk result (FindsSame self.new (self.old ++ naming_entry number (declaration_of entry.now))) }
        ensures names { OnOk result ((es : List Declaration) → length es ≡ number → AreNamesOf self.old es → AreNamesOf self.new (es ++ declaration_of entry.now ∷ [])) }
        ensures kept { OnOk result (Extends self.old self.new) }
        ensures err { OnErr result (self.new ≡ self.old) }
    {
        let count = self.len();
        match self.add_entry(alloc, number, entry) {
            Ok(()) => Ok(()),
            Err(wanting) => {
                self.truncate(count);
                Err(wanting)
            }
        }
    }

    #[tactic(auto, using(crate::proofs::Tables::table_rules))]
    fn add_entry(&mut self, alloc: Global, number: usize, entry: &Entry) -> Result<(), OutOfMemory>
        ensures ok { OnOk result (FindsSame self.new (self.old ++ naming_entry number (declaration_of entry.now))) }
        ensures kept { Extends self.old self.new }
    {
        match entry {
            Entry::Axiom { name, .. } => self.add_name(alloc, name, Meaning::Constant(number)),
            Entry::Definition { name, .. } => self.add_name(alloc, name, Meaning::Constant(number)),
            Entry::Recursive { name, .. } => self.add_name(alloc, name, Meaning::Constant(number)),
            Entry::Inductive { name, cons, .. } => {
                self.add_name(alloc, name, Meaning::Type(number))?;
                self.add_constructors(alloc, number, cons)
            }
        }
    }

    #[tactic(auto, using(crate::proofs::Tables::table_rules))]
    fn add_constructors(
        &mut self,
        alloc: Global,
        number: usize,
        cons: &Cons,
    ) -> Result<(), OutOfMemory>
        ensures ok { OnOk result (FindsSame self.new (self.old ++ naming_constructors number 0 cons.now)) }
        ensures kept { Extends self.old self.new }
    {
        for k in 0..cons.len() {
            let Some(constructor) = cons.get(k) else {
                return Ok(());
            };
            self.add_name(alloc, &constructor.name, Meaning::Constructor(number, k))?;
        }
        Ok(())
    }

    #[tactic(auto, using(crate::proofs::Tables::table_rules))]
    fn add_name(&mut self, alloc: Global, name: &Name, meaning: Meaning) -> Result<(), OutOfMemory>
        ensures ok { OnOk result (FindsSame self.new (self.old ++ (name.now, tree_meant meaning) ∷ [])) }
        ensures kept { Extends self.old self.new }
    {
        if self.is_taken(name.as_bytes()) {
            return Ok(());
        }
        let key = bytes_of(alloc, name)?;
        self.insert(key, meaning)
    }

    // Adds a new name.
    fn insert(&mut self, key: Vec<u8>, meaning: Meaning) -> Result<(), OutOfMemory>
        requires { is_some (find self.old key.items) ≡ false }
        ensures ok { OnOk result (self.new ≡ self.old ++ (key.items, tree_meant meaning) ∷ []) }
        ensures err { OnErr result (self.new ≡ self.old) }
    {
        self.names.insert(key, meaning)?;
        Ok(())
    }

    /// Goes back to the oldest names.
    pub fn truncate(&mut self, count: usize)
        ensures { self.new ≡ take count self.old }
    {
        self.names.truncate(count);
    }

    /// How many names there are.
    pub fn len(&self) -> usize
        ensures { result ≡ length self.now }
    {
        self.names.len()
    }
}

fn bytes_of(alloc: Global, name: &Name) -> Result<Vec<u8>, OutOfMemory>
    ensures { IfOk result (λ v. v.items ≡ name.now) }
{
    name.as_bytes().to_vec(alloc)
}
