// A set of variables.

ghost use Rattle.std.specs.Prelude.{◌≡◌, ℕ, ◌&&◌, not, IfErr, IfOk, OnOk};
ghost use Rattle.dae_select_walks.specs.Live.{with_all, only, none, is};
ghost use Rattle.dae_select_live.specs.Members.{member, without, IsAt, IsGapFor};

use std::alloc::{AllocError, Global};
use std::marker::Model;

/// A set of variables, in rising order, so that what is done with it takes the time that its variables need, however many
/// others the function has.
#[derive(Drop)]
pub struct LiveSet {
    variables: Vec<u32>,
}

impl Model for LiveSet {
    ghost use Rattle.std.specs.Prelude.{ℕ, List};
    ghost use Rattle.dae_select_live.specs.Members.{AreRising};

    ghost Value = { List ℕ };

    ghost view = { λ set. set.variables.items };

    ghost invariant = { λ set. AreRising set.variables.items };
}

impl LiveSet {
    /// The empty set. It takes no memory.
    pub fn new(alloc: Global) -> LiveSet
        ensures { member result ≡ none }
    {
        LiveSet {
            variables: Vec::new(alloc),
        }
    }

    /// Another set with the same variables.
    pub fn copy(&self, alloc: Global) -> Result<LiveSet, AllocError>
        ensures { IfOk result (λ set. set ≡ self.now) }
    {
        let mut variables = Vec::new(alloc);
        variables.extend_from_slice(self.variables.as_slice())?;
        Ok(LiveSet { variables })
    }

    /// A set with the same variables as another one, in the memory of this one.
    pub fn refill(self, other: &LiveSet) -> Result<LiveSet, AllocError>
        ensures { IfOk result (λ set. set ≡ other.now) }
    {
        let LiveSet { variables } = self;
        let mut variables = variables;
        variables.clear();
        variables.extend_from_slice(other.variables.as_slice())?;
        Ok(LiveSet { variables })
    }

    /// The variables in rising order.
    pub fn variables(&self) -> &[u32]
        ensures { result.now ≡ self.now }
    {
        self.variables.as_slice()
    }

    /// Where a variable stands, or where it would go.
    fn search(&self, variable: u32) -> Result<usize, usize>
        ensures found { IfOk result (IsAt self.now variable) }
        ensures absent { IfErr result (IsGapFor self.now variable) }
    {
        self.variables.binary_search(&variable)
    }

    /// Whether a variable is in the set.
    pub fn contains(&self, variable: u32) -> bool
        ensures { result ≡ member self.now variable }
    {
        match self.search(variable) {
            Ok(_) => true,
            Err(_) => false,
        }
    }

    /// A variable comes into the set.
    pub fn insert(&mut self, variable: u32) -> Result<(), AllocError>
        ensures { OnOk result (member self.new ≡ with_all (only variable) (member self.old)) }
    {
        match self.search(variable) {
            Ok(_) => Ok(()),
            Err(at) => Ok(self.variables.insert(at, variable)?),
        }
    }

    /// A variable goes out of the set.
    pub fn remove(&mut self, variable: u32)
        ensures { member self.new ≡ without variable (member self.old) }
    {
        match self.search(variable) {
            Ok(at) => {
                self.variables.remove(at);
            }
            Err(_) => {}
        }
    }

    /// The variables of another set come into this one.
    pub fn add_all(&mut self, other: &LiveSet) -> Result<(), AllocError>
        ensures { OnOk result (member self.new ≡ with_all (member self.old) (member other.now)) }
    {
        for variable in other.variables() {
            self.insert(*variable)?;
        }
        Ok(())
    }

    /// The variable, where there is one, goes out of the set.
    #[tactic(auto, using(crate::proofs::Rising::without_none))]
    pub fn remove_known(&mut self, variable: Option<u32>)
        ensures { member self.new ≡ (λ u. member self.old u && not (is variable u)) }
    {
        if let Some(variable) = variable {
            self.remove(variable);
        }
    }
}
