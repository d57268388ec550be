//! A stretch of instructions.
ghost use Rattle.std.specs.Prelude.{◌≡◌, ◌<◌, ◌≤◌, ◌+◌, ◌*◌, ◌/◌, ◌%◌, ◌^◌, None, Some, IfSome, IfNone, length, slice_index};
ghost use Rattle.base_words.specs.Fields.{sum};
ghost use Rattle.page_ops.specs.Ops.{AsksFor};
ghost use Rattle.page_ops.specs.Pages.{Goes, IsPlain, StopsAt, IsAt};

use crate::computing::compute;
use crate::leading::{Lead, follow};
use crate::meeting::op_at;
use crate::memo::Met;
use crate::op::Op;
use crate::registers::{get, sign_extend};
use crate::stretch::{Stop, Stretch};
use base_words::{Regs, Request, read_word};

/// The bytes of a page.
const PAGE: u32 = 4096;

/// What an instruction asks of memory.
#[inline(always)]
fn asked(op: &Op, regs: &Regs) -> Option<Request>
    requires zero { slice_index regs.now.general 0 ≡ 0 }
    ensures asks { AsksFor op.now regs.now result }
{
    match *op {
        Op::Load {
            kind,
            base,
            rt,
            offset,
        } => Some(Request::Load {
            kind,
            address: get(regs, base).wrapping_add(sign_extend(offset)),
            target: rt,
        }),
        Op::Store {
            kind,
            base,
            rt,
            offset,
        } => Some(Request::Store {
            kind,
            address: get(regs, base).wrapping_add(sign_extend(offset)),
            value: get(regs, rt),
        }),
        _ => None,
    }
}

/// Where the page of an address begins.
#[inline(always)]
fn page_start(pc: u32) -> u32
    ensures start { result ≡ pc / 4096 * 4096 }
    ensures fits { result + 4096 ≤ 2 ^ 32 }
{
    pc / PAGE * PAGE
}

/// How far an address is past another one, modulo 2^32.
#[inline(always)]
fn offset_to(first: u32, target: u32) -> u32
    ensures { sum first result ≡ target }
{
    target.wrapping_sub(first)
}

/// Does the instruction in the delay slot of a branch, which stands at this offset of the page that begins there; or leaves it, with the
/// branch's target in the registers.
#[inline(always)]
fn delayed(
    regs: &mut Regs,
    bytes: &[u8],
    places: &mut [Met; 1024],
    first: u32,
    at: u32,
    target: u32,
) -> Option<Stop>
    requires whole { length bytes.now ≡ 4096 }
    requires zero { slice_index regs.old.general 0 ≡ 0 }
    requires there { IsAt (first / 4096) first at }
    ensures made { IfNone result (IsPlain bytes.now (first / 4096) (record regs.old { pc = sum first at; slot = Some target }) (record regs.new { pc = target; slot = None })) }
    ensures slot { IfNone result (regs.new.slot ≡ regs.old.slot) }
    ensures left { IfSome result (λ stop. regs.new ≡ record regs.old { pc = sum first at; slot = Some target }) }
    ensures stops { IfSome result (StopsAt bytes.now (first / 4096) regs.new) }
    ensures zero { slice_index regs.new.general 0 ≡ 0 }
{
    let word = read_word(bytes, at as usize);
    let op = op_at(places, (at / 4) as usize, word);
    if compute(op, regs) {
        return None;
    }
    regs.pc = first.wrapping_add(at);
    regs.slot = Some(target);
    let asks = asked(op, regs);
    Some(Stop { word, asks })
}

/// Does instructions of a page, each branch with its delay slot, as long as each asks nothing, at most so many. No delay slot is begun
/// with.
#[inline(always)]
pub fn straight(regs: &mut Regs, bytes: &[u8], places: &mut [Met; 1024], most: u64) -> Stretch
    requires whole { length bytes.now ≡ 4096 }
    requires zero { slice_index regs.old.general 0 ≡ 0 }
    requires slot { regs.old.slot ≡ None }
    ensures few { result.made ≤ most }
    ensures goes { Goes bytes.now (regs.old.pc / 4096) result.made regs.old regs.new }
    ensures stops { IfSome result.stop (StopsAt bytes.now (regs.old.pc / 4096) regs.new) }
    ensures stops_before { IfSome result.stop (λ _. result.made < most) }
    ensures goes_on { regs.old.pc % 4 ≡ 0 → 0 < most → IfNone result.stop (0 < result.made) }
    ensures zero { slice_index regs.new.general 0 ≡ 0 }
{
    let first = page_start(regs.pc);
    let mut made = 0;
    let mut at = regs.pc % PAGE;
    while made < most && at < PAGE && at % 4 == 0 {
        let word = read_word(bytes, at as usize);
        let op = op_at(places, (at / 4) as usize, word);
        if compute(op, regs) {
            at += 4;
            made += 1;
            continue;
        }
        let target = match follow(op, regs, first.wrapping_add(at)) {
            Lead::ToSlot(target) => target,
            Lead::PastSlot => {
                at += 8;
                made += 1;
                continue;
            }
            Lead::Asks(request) => {
                regs.pc = first.wrapping_add(at);
                return Stretch {
                    made,
                    stop: Some(Stop {
                        word,
                        asks: Some(request),
                    }),
                };
            }
            Lead::Nowhere => {
                regs.pc = first.wrapping_add(at);
                return Stretch {
                    made,
                    stop: Some(Stop { word, asks: None }),
                };
            }
        };
        at += 4;
        made += 1;
        if made == most || at == PAGE {
            regs.pc = first.wrapping_add(at);
            regs.slot = Some(target);
            return Stretch { made, stop: None };
        }
        if let Some(stop) = delayed(regs, bytes, places, first, at, target) {
            return Stretch {
                made,
                stop: Some(stop),
            };
        }
        at = offset_to(first, target);
        made += 1;
    }
    regs.pc = first.wrapping_add(at);
    Stretch { made, stop: None }
}
