// The same type in two files.

ghost use Rattle.std.specs.List.{AllByRecursion};
ghost use Rattle.std.specs.Prelude.{false, ◌≡◌, ◌&&◌, ℕ, suc, ◌+◌, ◌<◌, ◌≤◌, ◌∷◌, ◌++◌, [], IfOk, MatchOption, OnOk, length, filter, option_copied, slice_get, is_some};
ghost use Rattle.dae_types_kinds.specs.Types.{counts_agree, layout_of};
ghost use Rattle.dae_types_typed.specs.Sound.{bytes_of, is_member_of, tables_of};
ghost use Rattle.dae_unit.specs.Across.{same_tag, tag_of, members_within, structures_within, shapes_within, same_plain, same_within_files, same_across};
ghost use Rattle.dae_unit.specs.Couples.{AreEnclosed, AreKnown, IsFound, IsNotedOther, agree_within, all_agree, all_hold, cost, depth_of, goals_at, goes_on, shape_in, weight};
ghost use Rattle.dae_unit.specs.declared.couples.CoupleTask.TheVariants.{Compare};

use crate::couples::{Compared, Couple, CoupleTask, CoupleVerdict, Goal, Verdicts};
use dae_types_kinds::{Component, Shape};
use dae_types_typed::FileParts;
use std::alloc::{AllocError, Global};

fn counts_agree(left: Option<u32>, right: Option<u32>) -> bool
    ensures { result ≡ counts_agree left right }
{
    match (left, right) {
        (Some(left), Some(right)) => left == right,
        _ => true,
    }
}

fn bytes_of(parts: &FileParts, name: u32) -> &[u8]
    ensures { result.now ≡ bytes_of parts.now.names name }
{
    match parts.names.as_slice().get(name as usize) {
        Some(bytes) => bytes.as_slice(),
        None => &[],
    }
}

fn tag_of(parts: &FileParts, structure: usize) -> Option<&[u8]>
    ensures { option_copied result ≡ tag_of parts.now (slice_get parts.now.structures structure) }
{
    match parts.structures.as_slice().get(structure) {
        Some(structure) => match structure.tag {
            Some(name) => Some(bytes_of(parts, name)),
            None => None,
        },
        None => None,
    }
}

fn same_tag(left: Option<&[u8]>, right: Option<&[u8]>) -> bool
    ensures { result ≡ same_tag (option_copied left.entry) (option_copied right.entry) }
{
    match (left, right) {
        (Some(left), Some(right)) => left == right,
        (None, None) => true,
        _ => false,
    }
}

fn is_complete(parts: &FileParts, structure: usize) -> bool
    ensures { result ≡ is_some (layout_of (tables_of parts.now) structure) }
{
    parts.layout_of(structure).is_some()
}

/// The first member of a structure among components, and the components behind it.
fn next_member(components: &[Component], structure: usize) -> Option<(Component, &[Component])>
    ensures members { MatchOption result (filter (is_member_of structure) components.now ≡ [])
        (λ x. filter (is_member_of structure) components.now
        ≡ x.0 ∷ filter (is_member_of structure) x.1.now) }
    ensures shorter { MatchOption result Unit (λ x. length x.1.now < length components.now) }
{
    for (index, component) in components.iter().enumerate() {
        if component.structure == structure {
            return Some((*component, &components[index + 1..]));
        }
    }
    None
}

fn same_plain(left: Shape, right: Shape) -> bool
    ensures { result ≡ same_plain left right }
{
    match (left, right) {
        (Shape::Void, Shape::Void) => true,
        (Shape::Char, Shape::Char) => true,
        (Shape::SignedChar, Shape::SignedChar) => true,
        (Shape::UnsignedChar, Shape::UnsignedChar) => true,
        (Shape::Short, Shape::Short) => true,
        (Shape::UnsignedShort, Shape::UnsignedShort) => true,
        (Shape::Int, Shape::Int) => true,
        (Shape::Unsigned, Shape::Unsigned) => true,
        (Shape::NoParameters, Shape::NoParameters) => true,
        _ => false,
    }
}

/// The shapes of a couple's types.
fn shapes_of(f: &FileParts, g: &FileParts, couple: Couple) -> (Shape, Shape)
    ensures left { result.0 ≡ shape_in f.now couple.structures couple.left }
    ensures right { result.1 ≡ shape_in g.now couple.structures couple.right }
{
    if couple.structures {
        return (Shape::Struct(couple.left), Shape::Struct(couple.right));
    }
    (f.shape_of(couple.left), g.shape_of(couple.right))
}

/// A couple by the numbers of its structures, where both types are structures.
fn by_structures(f: &FileParts, g: &FileParts, couple: Couple) -> Couple
    ensures { (k : ℕ) → agree_within k f.now g.now result ≡ agree_within k f.now g.now couple }
{
    match shapes_of(f, g, couple) {
        (Shape::Struct(left), Shape::Struct(right)) => Couple {
            structures: true,
            behind: couple.behind,
            left,
            right,
        },
        _ => couple,
    }
}

/// Puts two types that a couple is made of behind others.
fn push_part(
    f: &FileParts,
    g: &FileParts,
    behind: bool,
    types: (usize, usize),
    parts: &mut Vec<Couple>,
) -> Result<(), AllocError>
    ensures same { OnOk result
        ((k : ℕ) → all_agree k f.now g.now parts.new.items
        ≡ (all_agree k f.now g.now parts.old.items
        && same_within_files k f.now g.now behind types.0 types.1)) }
    ensures one { OnOk result (length parts.new.items ≡ length parts.old.items + 1) }
{
    let couple = Couple {
        structures: false,
        behind,
        left: types.0,
        right: types.1,
    };
    parts.push(by_structures(f, g, couple))?;
    Ok(())
}

/// Puts the types of the members of two structures behind others, unless their names or their number differ.
fn push_members(
    f: &FileParts,
    g: &FileParts,
    structures: (usize, usize),
    parts: &mut Vec<Couple>,
) -> Result<bool, AllocError>
    ensures same { IfOk result
        (λ agree. (k : ℕ) → (agree && all_agree k f.now g.now parts.new.items)
        ≡ (all_agree k f.now g.now parts.old.items
        && members_within k f.now g.now structures.0 structures.1)) }
    ensures few { OnOk result
        (length parts.new.items ≤ length parts.old.items + length f.now.components) }
{
    let mut left = f.components.as_slice();
    let mut right = g.components.as_slice();
    while let Some((x, more)) = next_member(left, structures.0) {
        match next_member(right, structures.1) {
            Some((y, others)) => {
                if bytes_of(f, x.name) != bytes_of(g, y.name) {
                    return Ok(false);
                }
                push_part(f, g, false, (x.type_id, y.type_id), parts)?;
                left = more;
                right = others;
            }
            None => return Ok(false),
        }
    }
    Ok(next_member(right, structures.1).is_none())
}

/// Puts the types of the members of two structures behind others, unless their tags differ or, where they don't stand behind a
/// pointer, they aren't both complete.
fn push_structures(
    f: &FileParts,
    g: &FileParts,
    behind: bool,
    structures: (usize, usize),
    parts: &mut Vec<Couple>,
) -> Result<bool, AllocError>
    ensures same { IfOk result
        (λ agree. (k : ℕ) → (agree && all_agree k f.now g.now parts.new.items)
        ≡ (all_agree k f.now g.now parts.old.items
        && structures_within k f.now g.now behind structures.0 structures.1)) }
    ensures few { OnOk result
        (length parts.new.items ≤ length parts.old.items + length f.now.components) }
{
    if !same_tag(tag_of(f, structures.0), tag_of(g, structures.1)) {
        return Ok(false);
    }
    if behind {
        return Ok(true);
    }
    if !is_complete(f, structures.0) || !is_complete(g, structures.1) {
        return Ok(false);
    }
    push_members(f, g, structures, parts)
}

/// Puts the types that two shapes are made of behind others, unless these differ whatever they are made of.
#[tactic(auto, using(crate::proofs::Comparing::plain_last))]
fn push_shapes(
    f: &FileParts,
    g: &FileParts,
    behind: bool,
    shapes: (Shape, Shape),
    parts: &mut Vec<Couple>,
) -> Result<bool, AllocError>
    ensures same { IfOk result
        (λ agree. (k : ℕ) → (agree && all_agree k f.now g.now parts.new.items)
        ≡ (all_agree k f.now g.now parts.old.items
        && shapes_within k f.now g.now behind shapes.0 shapes.1)) }
    ensures few { OnOk result
        (length parts.new.items ≤ length parts.old.items + (length f.now.components + 2)) }
{
    match shapes {
        (Shape::Pointer(m), Shape::Pointer(n)) => push_part(f, g, true, (m, n), parts)?,
        (Shape::Array(m, count), Shape::Array(n, other)) => {
            push_part(f, g, behind, (m, n), parts)?;
            return Ok(counts_agree(count, other));
        }
        (Shape::Struct(left), Shape::Struct(right)) => {
            return push_structures(f, g, behind, (left, right), parts);
        }
        (Shape::Function(m, ps), Shape::Function(n, qs)) => {
            push_part(f, g, behind, (m, n), parts)?;
            push_part(f, g, behind, (ps, qs), parts)?;
        }
        (Shape::Parameter(ps, m), Shape::Parameter(qs, n)) => {
            push_part(f, g, behind, (ps, qs), parts)?;
            push_part(f, g, behind, (m, n), parts)?;
        }
        (left, right) => return Ok(same_plain(left, right)),
    }
    Ok(true)
}

/// Puts the types that a couple is made of behind others, unless it differs whatever they are.
fn push_parts(
    f: &FileParts,
    g: &FileParts,
    couple: Couple,
    parts: &mut Vec<Couple>,
) -> Result<bool, AllocError>
    ensures same { IfOk result
        (λ agree. (k : ℕ) → (agree && all_agree k f.now g.now parts.new.items)
        ≡ (all_agree k f.now g.now parts.old.items
        && agree_within (suc k) f.now g.now couple)) }
    ensures few { OnOk result
        (length parts.new.items ≤ length parts.old.items + (length f.now.components + 2)) }
{
    push_shapes(f, g, couple.behind, shapes_of(f, g, couple), parts)
}

/// Puts couples that are to be compared within so many levels behind other tasks.
fn push_goals(tasks: &mut Vec<CoupleTask>, parts: &[Couple], depth: usize) -> Result<(), AllocError>
    ensures { OnOk result (tasks.new.items ≡ tasks.old.items ++ goals_at depth parts.now) }
{
    for part in parts {
        tasks.push(CoupleTask::Compare(Goal {
            couple: *part,
            depth,
        }))?;
    }
    Ok(())
}

/// Compares a couple level by level: what it is made of is still to be compared, and then it is to be noted.
fn compare(
    alloc: Global,
    f: &FileParts,
    g: &FileParts,
    known: &Verdicts,
    tasks: &mut Vec<CoupleTask>,
    goal: Goal,
) -> Result<Compared, AllocError>
    requires { AreKnown f.now g.now known.now.entries }
    ensures same { IfOk result
        (λ came. (goes_on came && all_hold f.now g.now tasks.new.items)
        ≡ (all_hold f.now g.now tasks.old.items
        && agree_within goal.depth f.now g.now goal.couple)) }
    ensures found { IfOk result (λ came. IsFound f.now g.now goal.couple came) }
    ensures kept { IfOk result
        (λ came. goes_on came ≡ false → tasks.new.items ≡ tasks.old.items) }
    ensures enclosed { OnOk result
        (AreEnclosed f.now g.now (tasks.old.items ++ Compare goal ∷ [])
        → AreEnclosed f.now g.now tasks.new.items) }
    ensures less { OnOk result
        (let most = length f.now.components + 2 in
        weight most tasks.new.items < weight most tasks.old.items + cost most goal.depth) }
{
    if let Some(verdict) = known.get(&goal.couple) {
        match *verdict {
            CoupleVerdict::Other => return Ok(Compared::Differs),
            CoupleVerdict::Same(enough) => {
                if enough <= goal.depth {
                    return Ok(Compared::Further);
                }
            }
        }
    }
    if goal.depth == 0 {
        return Ok(Compared::TooDeep);
    }
    let mut parts = Vec::new(alloc);
    if !push_parts(f, g, goal.couple, &mut parts)? {
        return Ok(Compared::Differs);
    }
    tasks.push(CoupleTask::Note(goal.couple))?;
    push_goals(tasks, parts.as_slice(), goal.depth - 1)?;
    Ok(Compared::Further)
}

/// The least number of levels within which each of these couples is known to be the same, where each is.
fn depth_of(known: &Verdicts, couples: &[Couple]) -> Option<usize>
    ensures { result ≡ depth_of known.now.entries 0 couples.now }
{
    let mut depth = 0;
    for couple in couples {
        match known.get(couple) {
            Some(CoupleVerdict::Same(enough)) => depth = depth.max(*enough),
            _ => return None,
        }
    }
    Some(depth)
}

/// Notes that a couple is the same, where all that it is made of is known to be.
fn note(
    alloc: Global,
    f: &FileParts,
    g: &FileParts,
    known: &mut Verdicts,
    couple: Couple,
) -> Result<(), AllocError>
    requires { AreKnown f.now g.now known.old.entries }
    ensures { OnOk result (AreKnown f.now g.now known.new.entries) }
{
    let mut parts = Vec::new(alloc);
    if !push_parts(f, g, couple, &mut parts)? {
        return Ok(());
    }
    if let Some(depth) = depth_of(known, parts.as_slice()) {
        if depth < usize::MAX {
            known.insert(couple, CoupleVerdict::Same(depth + 1))?;
        }
    }
    Ok(())
}

/// Notes that the types of the couples that were to be noted differ.
fn note_differing(known: &mut Verdicts, tasks: &[CoupleTask]) -> Result<(), AllocError>
    ensures { OnOk result
        ((f g : FileParts) → AreKnown f g known.old.entries
        → AllByRecursion (IsNotedOther f g) tasks.now → AreKnown f g known.new.entries) }
{
    for task in tasks {
        match *task {
            CoupleTask::Note(couple) => {
                known.insert(couple, CoupleVerdict::Other)?;
            }
            CoupleTask::Compare(_) => {}
        }
    }
    Ok(())
}

/// Whether a type of one file and one of another are the same, by what is known of the types of these files; from then on
/// more is known.
#[tactic(auto, unfolding(crate::specs::Across::same_across))]
pub fn same_across(
    alloc: Global,
    f: &FileParts,
    g: &FileParts,
    known: &mut Verdicts,
    types: (usize, usize),
) -> Result<bool, AllocError>
    requires { AreKnown f.now g.now known.old.entries }
    ensures same { IfOk result (λ same. same ≡ same_across f.now g.now types.0 types.1) }
    ensures known { OnOk result (AreKnown f.now g.now known.new.entries) }
{
    let couple = Couple {
        structures: false,
        behind: false,
        left: types.0,
        right: types.1,
    };
    let mut tasks = Vec::new(alloc);
    tasks.push(CoupleTask::Compare(Goal {
        couple: by_structures(f, g, couple),
        depth: f.shapes.len(),
    }))?;
    while let Some(task) = tasks.pop() {
        match task {
            CoupleTask::Compare(goal) => match compare(alloc, f, g, known, &mut tasks, goal)? {
                Compared::Further => {}
                Compared::Differs => {
                    tasks.push(CoupleTask::Note(goal.couple))?;
                    note_differing(known, tasks.as_slice())?;
                    return Ok(false);
                }
                Compared::TooDeep => return Ok(false),
            },
            CoupleTask::Note(couple) => note(alloc, f, g, known, couple)?,
        }
    }
    Ok(true)
}
