//! How each handler stands.

ghost use Rattle.std.specs.Prelude.{◌≡◌, ◌++◌, ◌<◌, OnOk, codes, decimal, flat_map, string_bytes};
ghost use Rattle.std.specs.List.{range_with_len};
ghost use Rattle.dr_meaning.specs.Meaning.Machine.{handlers};
ghost use Rattle.dr_core.specs.Calls.CoreView.{gate_of};
ghost use Rattle.dr_show.specs.Meaning.Texts.{bool_text};
ghost use Rattle.dr_show.specs.Meaning.StateText.{answer_word, handler_object};
ghost use Rattle.dr_show.specs.Inside.Seen.{poll_answer_in, cursor_in, handler_in, handler_seen};

use crate::texts::{put_comma, word_of};
use dr_core::Core;
use dr_drive::standing::{gate, is_gating, ready};
use dr_meaning::Mode;
use dr_seq::Event;
use std::alloc::AllocError;

/// What a poll would be answered.
#[derive(Clone, Copy, Debug)]
pub(crate) enum PollAnswer {
    Retired,
    Batch,
    Drained,
    Gating,
    Idle,
}

impl PollAnswer {
    fn word(self) -> &'static str
        ensures { result.now ≡ answer_word self }
    {
        match self {
            PollAnswer::Retired => "retired",
            PollAnswer::Batch => "batch",
            PollAnswer::Drained => "drained",
            PollAnswer::Gating => "gating",
            PollAnswer::Idle => "idle",
        }
    }
}

/// A handler now.
#[derive(Clone, Copy, Debug)]
pub(crate) struct HandlerState {
    taken: u64,
    completed: u64,
    ready: u64,
    poll: PollAnswer,
    is_retired: bool,
    gates: bool,
    holds: bool,
}

// The published sequences with one producer, the claimed ones with several.
fn cursor(core: &Core<Event>, mode: Mode) -> u64
    requires { mode ≡ core.now.setup.mode }
    ensures { result ≡ cursor_in core.now }
{
    if mode.is_single() {
        core.front()
    } else {
        core.next()
    }
}

fn poll_answer(core: &Core<Event>, mode: Mode, h: usize) -> PollAnswer
    requires handler { h < handlers core.now.setup }
    requires mode { mode ≡ core.now.setup.mode }
    ensures { result ≡ poll_answer_in core.now h }
{
    if core.is_retired(h) {
        PollAnswer::Retired
    } else if ready(core, h) > 0 {
        PollAnswer::Batch
    } else if core.is_halted() && core.taken(h) == core.next() {
        PollAnswer::Drained
    } else if core.taken(h) < cursor(core, mode) {
        PollAnswer::Gating
    } else {
        PollAnswer::Idle
    }
}

fn state_of(core: &Core<Event>, mode: Mode, gate: u64, h: usize) -> HandlerState
    requires handler { h < handlers core.now.setup }
    requires mode { mode ≡ core.now.setup.mode }
    requires gate { gate ≡ gate_of core.now }
    ensures { result ≡ handler_in core.now h }
{
    let completed = core.completed(h);
    let gates = is_gating(core, h);
    HandlerState {
        taken: core.taken(h),
        completed,
        ready: ready(core, h),
        poll: poll_answer(core, mode, h),
        is_retired: core.is_retired(h),
        gates,
        holds: gates && completed == gate,
    }
}

// Puts how far a handler is.
fn put_counts(page: &mut String, it: HandlerState) -> Result<(), AllocError>
    ensures { OnOk result (string_bytes page.new ≡ string_bytes page.old ++ (codes "{\"taken\":" ++ decimal it.taken ++ codes ",\"completed\":" ++ decimal it.completed ++ codes ",\"ready\":" ++ decimal it.ready)) }
{
    let taken = it.taken;
    let completed = it.completed;
    let ready = it.ready;
    write!(
        page,
        "{{\"taken\":{taken},\"completed\":{completed},\"ready\":{ready}"
    )
}

// Puts what a poll is answered, and whether the handler is retired.
fn put_answer(page: &mut String, it: HandlerState) -> Result<(), AllocError>
    ensures { OnOk result (string_bytes page.new ≡ string_bytes page.old ++ (codes ",\"poll\":\"" ++ answer_word it.poll ++ codes "\",\"retired\":" ++ bool_text it.is_retired)) }
{
    let word = it.poll.word();
    let retired = word_of(it.is_retired);
    write!(page, ",\"poll\":\"{word}\",\"retired\":{retired}")
}

// Puts whether claims wait for a handler.
fn put_gates(page: &mut String, it: HandlerState) -> Result<(), AllocError>
    ensures { OnOk result (string_bytes page.new ≡ string_bytes page.old ++ (codes ",\"gates\":" ++ bool_text it.gates ++ codes ",\"holds\":" ++ bool_text it.holds ++ codes "}")) }
{
    let gates = word_of(it.gates);
    let holds = word_of(it.holds);
    write!(page, ",\"gates\":{gates},\"holds\":{holds}}}")
}

fn put_handler(page: &mut String, h: usize, it: HandlerState) -> Result<(), AllocError>
    ensures { OnOk result (string_bytes page.new ≡ string_bytes page.old ++ handler_object h it) }
{
    put_comma(page, h as u64)?;
    put_counts(page, it)?;
    put_answer(page, it)?;
    put_gates(page, it)
}

fn put_each(page: &mut String, core: &Core<Event>, mode: Mode, gate: u64) -> Result<(), AllocError>
    requires mode { mode ≡ core.now.setup.mode }
    requires gate { gate ≡ gate_of core.now }
    ensures { OnOk result (string_bytes page.new ≡ string_bytes page.old ++ flat_map (handler_seen core.now) (range_with_len 0 (handlers core.now.setup))) }
{
    for h in 0..core.graph().len() {
        put_handler(page, h, state_of(core, mode, gate, h))?;
    }
    Ok(())
}

/// Puts how each handler stands.
pub(crate) fn put_handlers(
    page: &mut String,
    core: &Core<Event>,
    mode: Mode,
) -> Result<(), AllocError>
    requires { mode ≡ core.now.setup.mode }
    ensures { OnOk result (string_bytes page.new ≡ string_bytes page.old ++ (codes ",\"handlers\":[" ++ flat_map (handler_seen core.now) (range_with_len 0 (handlers core.now.setup)) ++ codes "]")) }
{
    page.push_str(",\"handlers\":[")?;
    put_each(page, core, mode, gate(core))?;
    page.push_str("]")
}
