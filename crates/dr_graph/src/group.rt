//! Groups of handlers: what a call of a builder declared or named.

ghost use Rattle.std.specs.Prelude.{◌≡◌, ◌<◌, ◌++◌, [], length, IfOk};
ghost use Rattle.dr_graph.specs.Meaning.Name.{texts, given, new_names};

use crate::name::{add_group, add_names};
use indexmap::IndexSet;
use std::alloc::{AllocError, Global};
use std::marker::Model;

/// Some handlers, by their distinct names. A builder takes the groups of another one too, and reads them by name.
#[derive(Drop)]
pub struct Group {
    names: IndexSet<String>,
}

impl Model for Group {
    ghost use Rattle.std.specs.Prelude.{List};
    ghost use Rattle.dr_graph.specs.Meaning.Name.{Name};

    ghost Value = { List Name };

    ghost use Rattle.dr_graph.specs.Inside.KeptGroup.{group_of, IsKeptGroup};

    ghost view = { group_of };

    ghost invariant = { IsKeptGroup };
}

impl Group {
    ghost use Rattle.dr_graph.specs.Inside.KeptGroup.{IsGroup};

    /// The group of some names, each once.
    pub(crate) fn of(alloc: Global, names: &[&str]) -> Result<Group, AllocError>
        requires { 0 < length names.now }
        ensures { IfOk result (λ group. group ≡ new_names [] (given names.now)) }
    {
        let mut group = IndexSet::new(alloc);
        add_names(alloc, &mut group, names)?;
        Ok(Group { names: group })
    }

    /// The names of a group, and then those of another that it lacks.
    pub(crate) fn joined(alloc: Global, first: &Group, second: &Group) -> Result<Group, AllocError>
        ensures { IfOk result (λ group. group ≡ first.now ++ new_names first.now second.now) }
    {
        let mut names = IndexSet::new(alloc);
        add_group(alloc, &mut names, first.names())?;
        add_group(alloc, &mut names, second.names())?;
        Ok(Group { names })
    }

    /// The names, in the order in which they were declared or given.
    pub(crate) fn names(&self) -> &[String]
        ensures names { texts result.now ≡ self.now }
        ensures group { IsGroup self.now }
    {
        self.names.as_slice()
    }
}
