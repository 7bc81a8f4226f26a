// How scopes begin and end (C90 6.1.2.1).

ghost use Rattle.std.specs.Prelude.{◌≡◌, Ok};
ghost use Rattle.dae_types_kinds.specs.declared.tables.Innermost.{Innermost};
ghost use Rattle.dae_types_kinds.specs.Tables.{Tables, opened, closed, reopened};
ghost use Rattle.dae_types_rules.specs.Plan.{Gives};
ghost use Rattle.dae_types_tables.specs.Seen.{tables, continued, Leaves, LeavesAnd};

use crate::Checker;
use dae_types_kinds::{CheckError, Innermost};

impl Checker {
    /// Begins a scope, and gives where the one round it starts.
    pub fn open(&mut self) -> Innermost
        ensures opened { tables self.new ≡ opened (tables self.old) }
        ensures outer { result ≡ (tables self.old).innermost }
    {
        let outer = self.innermost;
        self.innermost = Innermost {
            names: self.names.len(),
            tags: self.tags.len(),
        };
        outer
    }

    /// Ends a scope, and goes on with the one round it. What the scope declared is kept.
    pub fn close(&mut self, outer: Innermost) -> Result<(), CheckError>
        ensures { Leaves self.new result (closed outer (tables self.old)) }
    {
        let names = self.innermost.names.min(self.names.len());
        let tags = self.innermost.tags.min(self.tags.len());
        self.kept_names = self.names.split_off(names)?;
        self.kept_tags = self.tags.split_off(tags)?;
        self.innermost = outer;
        Ok(())
    }

    /// Begins a scope with what the latest one that ended declared, and gives where the one round it starts.
    pub fn reopen(&mut self) -> Result<Innermost, CheckError>
        ensures { LeavesAnd self.new result (continued (tables self.old)) }
    {
        let outer = self.open();
        self.names.push_all(&self.kept_names)?;
        self.tags.extend_from_slice(&self.kept_tags)?;
        Ok(outer)
    }
}
