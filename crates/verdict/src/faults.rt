// The faults of a message: those of each binding by itself, and 18, 12 and 13, which the rows before and the clean bindings decide.
ghost use Rattle.std.specs.Prelude.{◌≡◌, ℕ, ◌≤◌, true, not, List, length, eqb, false, Some, Ok, All, MatchResult};
ghost use Rattle.std.proofs.Math.Option.{Option};
ghost use Rattle.names.specs.Places.{is_timer};
ghost use Rattle.octets.specs.Parts.{part};
ghost use Rattle.names.specs.declared.model.Model.{Model};
ghost use Rattle.block.specs.Cells.{timer_in};
ghost use Rattle.block.specs.Content.{model_of};
ghost use Rattle.block.specs.Image.{content_of};
ghost use Rattle.block.specs.Lookup.{lookup};
ghost use Rattle.block.specs.Valid.{timers_ok, legal};
ghost use Rattle.block.specs.declared.rows.VlanRow.{VlanRow};
ghost use Rattle.answer.specs.Writes.{is_status, those, play_row};
ghost use Rattle.block.specs.Tables.{rows_of};
ghost use Rattle.block.specs.declared.tables.Table.TheVariants.{Vlan as vlan};
ghost use Rattle.answer.specs.Faults.{fault_in};
ghost use Rattle.answer.specs.Tables.{status_step, step, lacking, clash};
ghost use Rattle.answer.specs.Set.{writes_to, attribute_fault, status_fault, resulting, row_fault, is_full, resulting_cells, cell_fault, fault, verdict};
ghost use Rattle.verdict.specs.Kept.{is_column, status_meant, column_at, meant_with, meant_by_with, does, is_done, full_in, full_of, sets_of, attribute_sets, verdict_with, KeepsNumbers, NonZero, TimersFit};
ghost use Rattle.verdict.specs.declared.faults.Act.TheVariants.{Fills};

use super::columns::{
    column_in, is_attribute_of, is_misplaced, is_status_of, makes_row, removes_row, status_place,
};
use super::judge::Kept;
use answer::faults::Fault;
use block::reads::{timer, vlan};
use block::tables::{Table, find_row, row_count, standing_of};
use instances::has_row;
use legality::belong_together;
use names::places::{
    BRIDGE_FORWARD_DELAY, BRIDGE_HELLO_TIME, BRIDGE_MAX_AGE, VLAN_EGRESS, VLAN_FORBIDDEN, is_timer,
};
use octets::ports::are_disjoint;

// Egress and Forbidden of a VLAN row.
#[derive(Clone, Copy, Drop)]
pub struct Sets {
    pub egress: u64,
    pub forbidden: u64,
}

// What a binding does to the row that it names: its status makes the row, or removes it, or it writes another column.
#[derive(Clone, Copy, Drop)]
pub enum Act {
    Makes,
    Removes,
    Fills,
}

// Whether each growing table would have more rows than there is room for.
#[derive(Clone, Copy, Drop)]
pub struct Full {
    pub vlans: bool,
    pub statics: bool,
    pub pairs: bool,
}

impl Full {
    fn of(self, t: Table) -> bool
        ensures { result ≡ full_of self t }
    {
        match t {
            Table::Vlan => self.vlans,
            Table::Static => self.statics,
            Table::Pair => self.pairs,
        }
    }
}

// The lowest binding at fault: its fault, and its index from 1 on.
#[derive(Clone, Copy, Drop)]
pub struct Faulted<E = Fault> {
    pub fault: E,
    pub index: u8,
}

// Whether a kept binding does so to the row that it names in a table.
fn does_to(act: Act, t: Table, q: Kept) -> bool
    ensures { result ≡ does act t q }
{
    match act {
        Act::Makes => is_status_of(t, q) & makes_row(t, q.value),
        Act::Removes => is_status_of(t, q) & removes_row(t, q.value),
        Act::Fills => is_attribute_of(t, q),
    }
}

// Whether some clean binding does so to a row of a table.
fn is_done<E: Copy>(kept: &[Result<Kept, E>], act: Act, t: Table, key: u64) -> bool
    ensures { result ≡ is_done act t key kept.now }
{
    for k in kept {
        if let Ok(q) = *k {
            if (key == q.key) & does_to(act, t, q) {
                return true;
            }
        }
    }
    false
}

// Whether a table would have more rows than there is room for.
fn is_full<E: Copy>(block: &[u8], t: Table, kept: &[Result<Kept, E>]) -> bool
    requires { (legal block.now ≡ true) × (length kept.now ≤ 16) }
    ensures { (n : E → ℕ) (s : List ℕ) → result ≡ is_full t (content_of block.now) (meant_by_with n s kept.now) }
{
    let at = standing_of(t);
    let mut rows = row_count(block, t);
    let mut room = at.most;
    for k in kept {
        if let Ok(q) = *k {
            if is_status_of(t, q) {
                let there = has_row(block, t, q.key);
                if makes_row(t, q.value) & !there {
                    rows += 1;
                }
                if removes_row(t, q.value) & there {
                    room += 1;
                }
            }
        }
    }
    room < rows
}

// Egress and Forbidden of the row before.
fn sets_before(block: &[u8], key: u64) -> Option<Sets>
    requires { legal block.now ≡ true }
    ensures { result ≡ sets_of (lookup key (content_of block.now).vlans) }
{
    match find_row(block, Table::Vlan, key) {
        Ok(i) => {
            let row = vlan(block, i);
            Some(Sets {
                egress: row.egress,
                forbidden: row.forbidden,
            })
        }
        Err(_) => None,
    }
}

// What a number in RowStatus makes of them: a row that is made has no ports.
fn with_status(sets: Option<Sets>, v: u64) -> Option<Sets>
    ensures { (m : Model) (k : ℕ) (o : Option VlanRow) → sets ≡ sets_of o → result ≡ sets_of (status_step m vlan k (status_meant vlan v) o) }
{
    if removes_row(Table::Vlan, v) {
        return None;
    }
    if makes_row(Table::Vlan, v) {
        return sets.or(Some(Sets {
            egress: 0,
            forbidden: 0,
        }));
    }
    sets
}

// After the status columns of a message.
fn after_statuses<E: Copy>(sets: Option<Sets>, kept: &[Result<Kept, E>], key: u64) -> Option<Sets>
    ensures { (n : E → ℕ) (m : Model) (s : List ℕ) (o : Option VlanRow) → sets ≡ sets_of o → result ≡ sets_of (play_row (step m vlan) key (those is_status (writes_to vlan (meant_by_with n s kept.now))) o) }
{
    let mut after = sets;
    for k in kept {
        if let Ok(q) = *k {
            if is_status_of(Table::Vlan, q) & (key == q.key) {
                after = with_status(after, q.value);
            }
        }
    }
    after
}

// What a column that is no status makes of them.
fn with_attribute(sets: Sets, q: Kept) -> Sets
    ensures { result ≡ attribute_sets q sets }
{
    let place = q.place as usize;
    match place {
        VLAN_EGRESS => Sets {
            egress: q.value,
            forbidden: sets.forbidden,
        },
        VLAN_FORBIDDEN => Sets {
            egress: sets.egress,
            forbidden: q.value,
        },
        _ => sets,
    }
}

// After the other columns of a message, of a row that is there.
fn after_attributes<E: Copy>(sets: Sets, kept: &[Result<Kept, E>], key: u64) -> Sets
    ensures { (n : E → ℕ) (m : Model) (s : List ℕ) (o : Option VlanRow) → Some sets ≡ sets_of o → Some result ≡ sets_of (play_row (step m vlan) key (those (λ c. not (is_status c)) (writes_to vlan (meant_by_with n s kept.now))) o) }
{
    let mut after = sets;
    for k in kept {
        if let Ok(q) = *k {
            if key == q.key {
                after = with_attribute(after, q);
            }
        }
    }
    after
}

// Whether the resulting row shares a port between Egress and Forbidden.
fn shares_port<E: Copy>(block: &[u8], kept: &[Result<Kept, E>], key: u64) -> bool
    requires { legal block.now ≡ true }
    ensures { (n : E → ℕ) (m : Model) (s : List ℕ) → result ≡ clash (resulting m vlan (writes_to vlan (meant_by_with n s kept.now)) key (lookup key (content_of block.now).vlans)) }
{
    let before = sets_before(block, key);
    let made = after_statuses(before, kept, key);
    match made {
        None => false,
        Some(made) => {
            let sets = after_attributes(made, kept, key);
            !are_disjoint(sets.egress, sets.forbidden)
        }
    }
}

fn attribute_fault(there: bool, made: bool, removed: bool, clash: bool) -> Result<(), Fault>
    ensures { fault_in result ≡ attribute_fault there made removed clash }
{
    if there | made {
        if (there & removed) | clash {
            return Err(Fault::InconsistentValue);
        }
        return Ok(());
    }
    Err(Fault::InconsistentName)
}

// Whether a number in a table's status column makes an absent row without a column that it needs: the bridge number of a pair (E12).
fn lacks_column<E: Copy>(kept: &[Result<Kept, E>], t: Table, key: u64, v: u64, there: bool) -> bool
    ensures { result ≡ lacking t (status_meant t v) there (is_done Fills t key kept.now) }
{
    match t {
        Table::Vlan => false,
        Table::Static => false,
        Table::Pair => {
            if makes_row(t, v) & !there {
                return !is_done(kept, Act::Fills, t, key);
            }
            false
        }
    }
}

// The fault of a status column's number, by whether it does not go with its row, makes it, whether the row is there and whether the table passes its room.
fn status_fault(misplaced: bool, making: bool, there: bool, full: bool) -> Result<(), Fault>
    ensures { fault_in result ≡ status_fault misplaced making there full }
{
    if misplaced {
        return Err(Fault::InconsistentValue);
    }
    if (making & !there) & full {
        return Err(Fault::ResourceUnavailable);
    }
    Ok(())
}

// The fault of a clean binding of a column of a table.
fn row_fault<E: Copy>(
    block: &[u8],
    t: Table,
    kept: &[Result<Kept, E>],
    full: bool,
    q: Kept,
) -> Result<(), Fault>
    requires { legal block.now ≡ true }
    ensures { (n : E → ℕ) (s : List ℕ) → is_column t q.place ≡ true → fault_in result ≡ row_fault (model_of (content_of block.now)) t full (writes_to t (meant_by_with n s kept.now)) q.key (column_at t q.place q.value (part s q.at q.len)) (lookup q.key (rows_of t (content_of block.now))) }
{
    let key = q.key;
    let place = q.place as usize;
    let there = has_row(block, t, key);
    if place == status_place(t) {
        let v = q.value;
        let misplaced = is_misplaced(t, v, there) | lacks_column(kept, t, key, v, there);
        return status_fault(misplaced, makes_row(t, v), there, full);
    }
    let made = is_done(kept, Act::Makes, t, key);
    let removed = is_done(kept, Act::Removes, t, key);
    if (place == VLAN_EGRESS) | (place == VLAN_FORBIDDEN) {
        return attribute_fault(there, made, removed, shares_port(block, kept, key));
    }
    attribute_fault(there, made, removed, false)
}

// The timer at a place after the clean kept bindings: the number of the kept binding that writes it, or the block's.
fn resulting_timer<E: Copy>(block: &[u8], kept: &[Result<Kept, E>], place: usize) -> u32
    requires { (legal block.now ≡ true) × TimersFit kept.now × (is_timer place ≡ true) }
    ensures { (n : E → ℕ) (s : List ℕ) → result ≡ timer_in (resulting_cells (content_of block.now) (meant_by_with n s kept.now)) place }
{
    let mut value = timer(block, place);
    for k in kept {
        if let Ok(q) = *k {
            if q.place as usize == place {
                value = q.value as u32;
            }
        }
    }
    value
}

// Whether the three timers belong together after the clean kept bindings.
fn timers_agree<E: Copy>(block: &[u8], kept: &[Result<Kept, E>]) -> bool
    requires { (legal block.now ≡ true) × TimersFit kept.now }
    ensures { (n : E → ℕ) (s : List ℕ) → result ≡ timers_ok (resulting_cells (content_of block.now) (meant_by_with n s kept.now)) }
{
    let age = resulting_timer(block, kept, BRIDGE_MAX_AGE);
    let hello = resulting_timer(block, kept, BRIDGE_HELLO_TIME);
    let delay = resulting_timer(block, kept, BRIDGE_FORWARD_DELAY);
    belong_together(age, hello, delay)
}

// The fault of a clean binding of the object at a place that has a cell.
fn cell_fault<E: Copy>(block: &[u8], kept: &[Result<Kept, E>], place: usize) -> Result<(), Fault>
    requires { (legal block.now ≡ true) × TimersFit kept.now }
    ensures { (n : E → ℕ) (s : List ℕ) → fault_in result ≡ cell_fault place (resulting_cells (content_of block.now) (meant_by_with n s kept.now)) }
{
    if !is_timer(place) {
        return Ok(());
    }
    if timers_agree(block, kept) {
        return Ok(());
    }
    Err(Fault::InconsistentValue)
}

// Which tables would have more rows than there is room for.
fn full_in<E: Copy>(block: &[u8], kept: &[Result<Kept, E>]) -> Full
    requires { (legal block.now ≡ true) × (length kept.now ≤ 16) }
    ensures { (n : E → ℕ) (s : List ℕ) → result ≡ full_in (content_of block.now) (meant_by_with n s kept.now) }
{
    Full {
        vlans: is_full(block, Table::Vlan, kept),
        statics: is_full(block, Table::Static, kept),
        pairs: is_full(block, Table::Pair, kept),
    }
}

// The fault of a binding: the one that is kept of it, unchanged, or the one that the message as a whole gives it, by
// which tables pass their room.
fn fault_of<E: Copy + From<Fault>>(
    block: &[u8],
    kept: &[Result<Kept, E>],
    full: Full,
    k: Result<Kept, E>,
) -> Result<(), E>
    requires { (legal block.now ≡ true) × TimersFit kept.now }
    ensures { (n : E → ℕ) (s : List ℕ) → KeepsNumbers E.from_gives n → NonZero n k → full ≡ full_in (content_of block.now) (meant_by_with n s kept.now) →
        (let f = fault (content_of block.now) (meant_by_with n s kept.now) (meant_with n s k) in MatchResult result (λ _. f ≡ 0) (λ e. (n e ≡ f) × (eqb (n e) 0 ≡ false))) }
{
    let q = k?;
    let place = q.place as usize;
    let holder = column_in(place);
    match holder {
        Some(t) => row_fault(block, t, kept, full.of(t), q)?,
        None => cell_fault(block, kept, place)?,
    }
    Ok(())
}

// The binding at fault with the lowest index, if any. `E` may be any type that a `Fault` converts to, such as an octet.
pub fn verdict_of<E: Copy + From<Fault>>(
    block: &[u8],
    kept: &[Result<Kept, E>],
) -> Result<(), Faulted<E>>
    requires { (legal block.now ≡ true) × (length kept.now ≤ 16) × TimersFit kept.now }
    ensures { (n : E → ℕ) (s : List ℕ) → KeepsNumbers E.from_gives n → All (NonZero n) kept.now → verdict_with n result ≡ verdict (content_of block.now) (meant_by_with n s kept.now) }
{
    let full = full_in(block, kept);
    for (i, k) in kept.iter().enumerate() {
        if let Err(fault) = fault_of(block, kept, full, *k) {
            return Err(Faulted {
                fault,
                index: i as u8 + 1,
            });
        }
    }
    Ok(())
}
