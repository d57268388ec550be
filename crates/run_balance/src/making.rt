//! How deques and owners are made.
ghost use Rattle.std.specs.Prelude.{◌≡◌, ◌≢◌, ◌<◌, ◌≤◌, ◌++◌, true, ℕ, Some, slice_get, OnOk, IfOk, List, length, map};
ghost use Rattle.crossbeam_deque.specs.Handles.{worker_view};
ghost use Rattle.run_balance.specs.Shares.{Share, flat, own_shares};
ghost use Rattle.run_balance.specs.Making.{IsNew, AreMade, Admitted, AreAdmitted, AreRows, IsRow, IsRowSide, AreFirsts, AreBare, ArePlaced, HavePlaces, passes_after, deque_made, count_made};
ghost use Rattle.run_balance.specs.Deques.{deque_of};
ghost use Rattle.run_balance.specs.declared.making.Made.{Made};
ghost use Rattle.run_balance.specs.declared.side.Side.TheVariants.{Own};

use crate::deals::{Gate, ShareList};
use crate::deque::{admit, open};
use crate::owner::Owner;
use crate::side::{Side, Stretch, put_marks};
use base_words::{Numbered, ProcId, Sequence};
use std::alloc::{AllocError, Global};

/// A stretch, and whose it is.
#[derive(Drop)]
pub struct Made {
    pub(crate) whose: ProcId,
    pub(crate) stretch: Stretch,
}

/// A stretch with its deque.
fn stretch_for(alloc: Global, share: &Sequence<u32>, owners: usize) -> Result<Stretch, AllocError>
    ensures { IfOk result (λ s. IsNew share.now owners 1 s) }
{
    let room = share.len().checked_add(owners).ok_or(AllocError)?;
    let mut dealer = open(alloc, share.as_slice(), room)?;
    if share.is_empty() {
        put_marks(&mut dealer, owners);
    }
    Ok(Stretch {
        dealer,
        count: share.len(),
        dealt: 0,
    })
}

/// The stretches of one processor, behind those before them.
fn add_stretches(
    alloc: Global,
    own: &Sequence<Sequence<u32>>,
    whose: ProcId,
    owners: usize,
    made: &mut Vec<Made>,
) -> Result<(), AllocError>
    ensures { OnOk result ((line : List Share) → AreMade line owners (λ _. 1) made.old.items → AreMade (line ++ own_shares whose.0 own.now) owners (λ _. 1) made.new.items) }
{
    let lists = own.as_slice();
    for place in 0..lists.len() {
        let stretch = stretch_for(alloc, &lists[place], owners)?;
        made.push(Made { whose, stretch })?;
    }
    Ok(())
}

/// All stretches, each with its deque.
pub(crate) fn stretches_for(alloc: Global, shares: &ShareList) -> Result<Vec<Made>, AllocError>
    requires few { length shares.now ≤ 256 }
    ensures { IfOk result (λ made. AreMade (flat shares.now) (length shares.now) (λ _. 1) made.items) }
{
    let lists = shares.as_slice();
    let mut made = Vec::new(alloc);
    for number in 0..lists.len() {
        add_stretches(
            alloc,
            &lists[number],
            ProcId(number as u8),
            lists.len(),
            &mut made,
        )?;
    }
    Ok(made)
}

/// How many items there are in all.
pub(crate) fn room_for(made: &[Made]) -> Result<usize, AllocError>
    ensures { IfOk result (λ room. room ≡ Rattle.std.specs.Prelude.sum_by count_made made.now) }
{
    let mut room: usize = 0;
    for m in made {
        room = room.checked_add(m.stretch.count).ok_or(AllocError)?;
    }
    Ok(room)
}

/// An owner's pass of a deque, unless it is its own.
fn side_for(m: &mut Made, number: usize) -> Side
    requires { ((worker_view m.old.stretch.dealer).deals ≡ true) × (0 < (worker_view m.old.stretch.dealer).parts) }
    ensures admitted { Admitted number m.old m.new }
    ensures side { m.old.whose.0 ≢ number → IsRowSide m.old.stretch.dealer result }
{
    if m.whose.number() == number {
        Side::Spent
    } else {
        Side::Other(admit(&mut m.stretch.dealer))
    }
}

/// An owner's passes of the deques of all others.
fn sides_of(alloc: Global, made: &mut [Made], number: usize) -> Result<Vec<Side>, AllocError>
    requires { (d : ℕ) (x : Made) → slice_get made.old d ≡ Some x → ((worker_view x.stretch.dealer).deals ≡ true) × (0 < (worker_view x.stretch.dealer).parts) }
    ensures admitted { OnOk result (AreAdmitted number made.old made.new) }
    ensures row { IfOk result (λ sides. IsRow number made.old sides.items) }
{
    let mut sides = Vec::new(alloc);
    for place in 0..made.len() {
        sides.push(side_for(&mut made[place], number))?;
    }
    Ok(sides)
}

/// The passes of all owners.
pub(crate) fn rows_for(
    alloc: Global,
    made: &mut [Made],
    owners: usize,
) -> Result<Vec<Vec<Side>>, AllocError>
    requires { (line : List Share) × AreMade line owners (λ _. 1) made.old }
    ensures new { OnOk result ((line : List Share) → AreMade line owners (λ _. 1) made.old → AreMade line owners (passes_after owners) made.new) }
    ensures rows { IfOk result (λ rows. AreRows owners made.new rows.items) }
{
    let mut rows = Vec::new(alloc);
    for number in 0..owners {
        rows.push(sides_of(alloc, made, number)?)?;
    }
    Ok(rows)
}

/// The way to each deque.
pub(crate) fn gates_of(alloc: Global, made: &[Made]) -> Result<Vec<Gate>, AllocError>
    ensures { IfOk result (λ gates. map deque_of gates.items ≡ map deque_made made.now) }
{
    let mut gates = Vec::new(alloc);
    for m in made {
        gates.push(Gate {
            way: m.stretch.dealer.stealer()?,
            whose: m.whose,
        })?;
    }
    Ok(gates)
}

/// Where each processor's stretches begin among all.
fn firsts_for(alloc: Global, shares: &ShareList) -> Result<Vec<usize>, AllocError>
    ensures { IfOk result (λ firsts. AreFirsts shares.now firsts.items) }
{
    let lists = shares.as_slice();
    let mut firsts = Vec::new(alloc);
    let mut first: usize = 0;
    for place in 0..lists.len() {
        firsts.push(first)?;
        first = first.checked_add(lists[place].len()).ok_or(AllocError)?;
    }
    Ok(firsts)
}

/// The owners, each with its passes.
pub(crate) fn owners_of(
    alloc: Global,
    rows: Vec<Vec<Side>>,
    shares: &ShareList,
    room: usize,
) -> Result<Vec<Owner>, AllocError>
    requires few { length rows.items ≤ 256 }
    ensures { IfOk result (λ owners. AreBare shares.now room rows.items owners.items) }
{
    let mut owners = Vec::new(alloc);
    for sides in rows {
        let number = owners.len();
        owners.push(Owner {
            number: ProcId(number as u8),
            reached: firsts_for(alloc, shares)?,
            sides,
            taken: Vec::with_capacity(alloc, room)?,
            from: Vec::with_capacity(alloc, room)?,
        })?;
    }
    Ok(owners)
}

/// Puts a stretch in its place with its owner.
fn place_one(sides: &mut Vec<Side>, place: usize, stretch: Stretch)
    requires { place < length sides.old.items }
    ensures { sides.new.items ≡ Rattle.std.specs.Prelude.slice_set sides.old.items place (Own stretch) }
{
    sides[place] = Side::Own(stretch);
}

/// Puts each stretch in its place with its owner.
pub(crate) fn place_all(made: Vec<Made>, owners: &mut [Owner])
    requires { HavePlaces made.items owners.old }
    ensures { ArePlaced made.items (length made.items) owners.old owners.new }
{
    let mut place: usize = 0;
    for m in made {
        place_one(&mut owners[m.whose.number()].sides, place, m.stretch);
        place += 1;
    }
}
