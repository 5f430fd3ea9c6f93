//! The steps on the table, and what each call of the turn makes of them.

ghost use Rattle.std.specs.Prelude.{◌≡◌, ◌≢◌, ℕ, suc, ◌<◌, ◌++◌, [], ◌∷◌, length, Some};
ghost use Rattle.rd_turn.specs.declared.rule.Stage.TheVariants.{Idle, Waiting, AtTurn};
ghost use Rattle.rd_turn.specs.History.{IsLegal, entry, calls_of};
ghost use Rattle.rd_turn.specs.Pass.{max_made, IsSamePass, Called, GoesOn, IsNumbered, IsLongerOf, after_split, new_pass};
ghost use Rattle.rd_turn.specs.Plays.{waiting_view, passed_view, Comes};
ghost use Rattle.rd_turn.specs.Seats.{pass_of, Rests, HasCalled};

use crate::object::Object;
use crate::plays::{Another, Draw, Learn, Look, PassOn, Said};
use crate::rule::{InTurn, View};
use atomic_table::{Seat, Shared};
use std::hint::spin_loop;
use std::marker::Brand;
use std::snapshot::Snapshot;
use std::sync::Wait;

/// A ticket of this number or more is never served, so that no word wraps.
const TICKET_LIMIT: u64 = 1 << 62;

/// How often a call looks at the ticket that is served before it sleeps.
const LOOKS: u32 = 100;

/// The word with the next ticket.
const TICKET: usize = 0;

/// The word with the ticket that is served.
const SERVING: usize = 1;

/// The slot of the object.
const OBJECT: usize = 0;

pub(crate) type TurnTable<O> = Shared<
    Option<O>,
    View<O, <O as Object>::Call, <O as Object>::Reply>,
    Snapshot<O>,
    InTurn,
>;

pub(crate) type TurnSeat<O> = Seat<Option<O>, View<O, <O as Object>::Call, <O as Object>::Reply>>;

fn draw<O: Object, W: Said<O::Call>>(
    table: &TurnTable<O>,
    seat: &mut TurnSeat<O>,
    call: &O::Call,
) -> u64
    requires said { W.item ≡ Some call.now }
    requires seat { (seat.old.table_id ≡ table.now.table_id) × (table.now.table_id.words ≡ 2) × (seat.old.me.1 ≡ []) × (seat.old.me.0.stage ≡ Idle) }
    ensures same { seat.new.table_id ≡ seat.old.table_id }
    ensures view { seat.new.me ≡ (waiting_view seat.old.me.0 result call.now, []) }
{
    let _ = call;
    table.fetch_add::<Draw<W>>(seat, TICKET, 1)
}

/// Looks until the ticket is served.
fn wait<O: Object, T: Wait>(rt: &T, table: &TurnTable<O>, seat: &mut TurnSeat<O>, ticket: u64)
    requires table { (seat.old.table_id ≡ table.now.table_id) × (table.now.table_id.words ≡ 2) }
    requires view { (seat.old.me.1 ≡ []) × ((c : O.Call) × (seat.old.me.0.stage ≡ Waiting ticket c)) }
    ensures same { seat.new.table_id ≡ seat.old.table_id }
    ensures view { (c : O.Call) → seat.old.me.0.stage ≡ Waiting ticket c → Comes O.steps ticket c seat.old.me seat.new.me }
{
    let mut looks = 0u32;
    for _ in rt.forever() {
        let serving = table.load::<Look>(seat, SERVING);
        if serving == ticket && serving < TICKET_LIMIT {
            return;
        }
        if looks < LOOKS {
            looks += 1;
            spin_loop();
        } else {
            table.park(rt, SERVING, (serving & 0xffff_ffff) as u32);
        }
    }
    unreachable!()
}

fn pass_on<O: Object, W: Said<O::Reply>>(
    table: &TurnTable<O>,
    seat: &mut TurnSeat<O>,
    reply: &O::Reply,
)
    requires said { W.item ≡ Some reply.now }
    requires seat { (seat.old.table_id ≡ table.now.table_id) × (table.now.table_id.words ≡ 2) × HasCalled O.steps reply.now seat.old.me }
    ensures same { seat.new.table_id ≡ seat.old.table_id }
    ensures view { (t : ℕ) (c : O.Call) → seat.old.me.0.stage ≡ AtTurn t c → seat.new.me ≡ (passed_view seat.old.me.0 c reply.now, []) }
{
    let _ = reply;
    let served = table.fetch_add::<PassOn<W>>(seat, SERVING, 1);
    // Who draws a ticket after this look finds the new number served, and doesn't sleep on the old one.
    if table.peek(TICKET) != served.wrapping_add(1) {
        table.wake_all(SERVING);
    }
}

/// Draws a ticket, waits for its turn, makes the call and passes the turn on.
pub(crate) fn call<O: Object, T: Wait>(
    rt: &T,
    table: &TurnTable<O>,
    seat: &mut TurnSeat<O>,
    call: O::Call,
) -> O::Reply
    requires table { (seat.old.table_id ≡ table.now.table_id) × (table.now.table_id.words ≡ 2) }
    requires opening { seat.old.me.0.opening ≡ Some table.now.key.value }
    requires rests { Rests seat.old.me }
    ensures rests { Rests seat.new.me }
    ensures own { (seat.new.table_id ≡ seat.old.table_id) × (seat.new.me.0.opening ≡ seat.old.me.0.opening) }
    ensures same { IsSamePass (pass_of seat.old) (pass_of seat.new) }
    ensures called { Called (pass_of seat.old) call result (pass_of seat.new) }
    ensures own_calls { calls_of seat.old.me.0.number seat.new.me.0.seen ≡ calls_of seat.old.me.0.number seat.old.me.0.seen ++ entry seat.old.me.0.number call result ∷ [] }
    ensures numbers { IsNumbered (pass_of seat.new) }
    ensures legal { IsLegal O.steps table.now.key.value seat.new.me.0.seen }
{
    let ticket = draw::<O, Brand>(table, seat, &call);
    wait(rt, table, seat, ticket);
    let taken = table.exchange(seat, OBJECT, None);
    let Some(mut object) = taken else {
        unreachable!()
    };
    let reply = object.call(call);
    let empty = table.exchange(seat, OBJECT, Some(object));
    let None = empty else { unreachable!() };
    pass_on::<O, Brand>(table, seat, &reply);
    reply
}

/// Splits a pass from pass 0.
pub(crate) fn split<O: Object>(table: &TurnTable<O>, seat: &mut TurnSeat<O>) -> TurnSeat<O>
    requires table { (seat.old.table_id ≡ table.now.table_id) × (table.now.table_id.words ≡ 2) }
    requires first { seat.old.me.0.number ≡ 0 }
    requires few { seat.old.me.0.made < max_made }
    requires rests { Rests seat.old.me }
    ensures rests { Rests seat.new.me × Rests result.me }
    ensures kept { pass_of seat.new ≡ after_split (pass_of seat.old) }
    ensures given { pass_of result ≡ new_pass (pass_of seat.old) }
    ensures fresh { calls_of result.me.0.number result.me.0.seen ≡ [] }
{
    let mut other = table.split_seat::<Another>(seat);
    table.load::<Learn>(&mut other, TICKET);
    other
}

/// Joins a pass to pass 0.
pub(crate) fn join<O: Object>(table: &TurnTable<O>, seat: &mut TurnSeat<O>, other: TurnSeat<O>)
    requires table { (seat.old.table_id ≡ table.now.table_id) × (other.table_id ≡ table.now.table_id) × (table.now.table_id.words ≡ 2) }
    requires first { seat.old.me.0.number ≡ 0 }
    requires later { other.me.0.number ≢ 0 }
    requires rests { Rests seat.old.me × Rests other.me }
    ensures rests { Rests seat.new.me }
    ensures own { (seat.new.table_id ≡ seat.old.table_id) × (seat.new.me.0.opening ≡ seat.old.me.0.opening) }
    ensures counts { (seat.new.me.0.number ≡ 0) × (seat.new.me.0.made ≡ seat.old.me.0.made) × (suc seat.new.me.0.out ≡ seat.old.me.0.out) }
    ensures joined { seat.new.me.0.joined ≡ (other.me.0.number, length (calls_of other.me.0.number other.me.0.seen)) ∷ seat.old.me.0.joined }
    ensures longer { IsLongerOf seat.old.me.0.seen other.me.0.seen seat.new.me.0.seen }
    ensures goes_on { GoesOn (pass_of seat.old) (pass_of seat.new) }
    ensures numbers { IsNumbered (pass_of seat.new) }
    ensures other_calls { calls_of other.me.0.number seat.new.me.0.seen ≡ calls_of other.me.0.number other.me.0.seen }
{
    table.load::<Learn>(seat, TICKET);
    table.join_seat::<Another>(seat, other);
    table.load::<Learn>(seat, TICKET);
}
