// The parts of a switch (C90 6.6.4.2): its labels, each of them once, and the statements behind them.

ghost use Rattle.std.specs.Prelude.{◌≡◌, [], ◌∷◌, ◌++◌, false, Ok, OnOk};
ghost use Rattle.dae_types_rules.specs.Plan.{Gives, pure};
ghost use Rattle.dae_types_file_plans.specs.Statements.{case_at, default_at, is_seen, labelled, with_label, with_statement};
ghost use Rattle.dae_types_tables.specs.Seen.{FollowsBy};
ghost use Rattle.dae_types_bodies.specs.Written.{as_statements};
ghost use Rattle.dae_types_bodies.specs.Arms.{arm_of, armed, view_armed, view_arming};

use dae_base::Place;
use dae_program::{Arm, Statement};
use dae_types_kinds::{CheckError, Rule};
use dae_types_tables::{Checker, broken};
use indexmap::IndexSet;
use std::alloc::{AllocError, Global};

/// What a switch has so far: its labels in the order of the text, where `default` is none, and its arms.
#[derive(Drop)]
pub struct Arming {
    pub seen: IndexSet<Option<u32>>,
    pub arms: Vec<Arm>,
}

impl Arming {
    /// Neither labels nor arms.
    pub fn new(alloc: Global) -> Arming
        ensures { view_arming result ≡ record { seen = []; arms = [] } }
    {
        let seen = IndexSet::new(alloc);
        let arms = Vec::new(alloc);
        Arming { seen, arms }
    }
}

/// Whether a label is among others.
fn is_seen(label: Option<u32>, labels: &IndexSet<Option<u32>>) -> bool
    ensures { result ≡ is_seen label labels.now.keys }
{
    labels.contains(&label)
}

/// Adds a label to others, among which it isn't yet.
fn see(labels: &mut IndexSet<Option<u32>>, label: Option<u32>) -> Result<(), AllocError>
    requires { is_seen label labels.old.keys ≡ false }
    ensures { OnOk result (labels.new.keys ≡ labels.old.keys ++ label ∷ []) }
{
    labels.insert(label)?;
    Ok(())
}

/// Adds an arm with one label.
#[tactic(auto, using(crate::proofs::Arms::arms_push))]
fn push_arm(alloc: Global, mut arms: Vec<Arm>, label: Option<u32>) -> Result<Vec<Arm>, CheckError>
    ensures { Gives (λ v. armed v.items) result (Ok (armed arms.items ++ arm_of label ∷ [])) }
{
    let mut labels = Vec::new(alloc);
    labels.push(label)?;
    let statements = Vec::new(alloc);
    arms.push(Arm { labels, statements })?;
    Ok(arms)
}

/// Adds an arm that is done, and one with one label.
#[tactic(auto, using(crate::proofs::Arms::arms_push))]
fn push_both(
    alloc: Global,
    mut arms: Vec<Arm>,
    done: Arm,
    label: Option<u32>,
) -> Result<Vec<Arm>, CheckError>
    ensures { Gives (λ v. armed v.items) result
        (Ok (armed arms.items ++ view_armed done ∷ arm_of label ∷ [])) }
{
    arms.push(done)?;
    push_arm(alloc, arms, label)
}

/// Adds a label: to those before it where no statement is between them.
#[tactic(auto, using(crate::proofs::Arms::arms_push, crate::proofs::Arms::label_at_the_end, crate::proofs::Arms::done_where_empty))]
fn add_label(alloc: Global, mut arms: Vec<Arm>, label: Option<u32>) -> Result<Vec<Arm>, CheckError>
    ensures { Gives (λ v. armed v.items) result (Ok (with_label label (armed arms.items))) }
{
    let Some(last) = arms.pop() else {
        return push_arm(alloc, arms, label);
    };
    if !last.statements.is_empty() {
        return push_both(alloc, arms, last, label);
    }
    let mut labels = last.labels;
    labels.push(label)?;
    let statements = last.statements;
    arms.push(Arm { labels, statements })?;
    Ok(arms)
}

/// Adds statements to the last arm, or begins one without a label.
#[tactic(auto, using(crate::proofs::Arms::arms_push, crate::proofs::Arms::statement_at_the_end, crate::proofs::Arms::statements_append))]
pub fn add_statements(
    alloc: Global,
    mut arms: Vec<Arm>,
    mut statements: Vec<Statement>,
) -> Result<Vec<Arm>, CheckError>
    ensures { Gives (λ v. armed v.items) result
        (Ok (with_statement (as_statements statements) (armed arms.items))) }
{
    let Some(last) = arms.pop() else {
        let labels = Vec::new(alloc);
        arms.push(Arm { labels, statements })?;
        return Ok(arms);
    };
    let labels = last.labels;
    let mut all = last.statements;
    all.append(&mut statements)?;
    arms.push(Arm {
        labels,
        statements: all,
    })?;
    Ok(arms)
}

/// Adds a label that isn't seen yet.
fn label(alloc: Global, arming: Arming, label: Option<u32>) -> Result<Arming, CheckError>
    requires { is_seen label arming.seen.keys ≡ false }
    ensures { Gives view_arming result (Ok (labelled label (view_arming arming))) }
{
    let arms = add_label(alloc, arming.arms, label)?;
    let mut seen = arming.seen;
    see(&mut seen, label)?;
    Ok(Arming { seen, arms })
}

/// `case` and its value.
#[inline(never)]
#[tactic(auto, unfolding(dae_types_rules::specs::Plan::ask_all))]
pub fn add_case(
    checker: &Checker,
    place: Place,
    arming: Arming,
    word: u32,
) -> Result<Arming, CheckError>
    ensures { FollowsBy view_arming checker.now result
        (case_at place (view_arming arming) (pure word)) checker.now }
{
    if is_seen(Some(word), &arming.seen) {
        return Err(broken(Rule::CaseDuplicate, place));
    }
    label(checker.alloc, arming, Some(word))
}

/// `default`
#[inline(never)]
#[tactic(auto, unfolding(dae_types_rules::specs::Plan::ask_all))]
pub fn add_default(checker: &Checker, place: Place, arming: Arming) -> Result<Arming, CheckError>
    ensures { FollowsBy view_arming checker.now result
        (default_at place (view_arming arming)) checker.now }
{
    if is_seen(None, &arming.seen) {
        return Err(broken(Rule::DefaultTwice, place));
    }
    label(checker.alloc, arming, None)
}
