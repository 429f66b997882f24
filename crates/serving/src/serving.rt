//! Conversations: messages are answered until they end.
ghost use Rattle.std.specs.Prelude.{◌≡◌, true, List, [], OnOk, map};
ghost use Rattle.answers.specs.Files.{input_view};
ghost use Rattle.serving.specs.Conversations.{Serves, ServesKnown};
ghost use Rattle.serving.specs.KnownClasses.{KnownClass};
ghost use Rattle.serving.specs.private.Serving.{AddsKnown, Begins, TakesTurn, ServesRound, ServesFirst};
ghost use Rattle.serving.specs.private.Stepping.{Knows};

use crate::known::{KnownFault, admitted};
use crate::message::Kind;
use crate::peer::Peer;
use crate::setting::Setting;
use crate::step::{Outcome, answer, with_kept};
use crate::stop::{ServeFault, Stop};
use bumpalo::Bump;
use classfile::{CutShort, Profile};
use std::alloc::Global;
use std::hash::RandomState;
use std::io::{Read, Write};
use std::random::RandomSource;
use verify::KnownSummaries;

/// The outcome of the next message.
#[derive(Drop)]
enum Turn<'a> {
    /// There is none: the input has ended.
    AtEnd,
    /// It was answered, and these classes are known.
    Answered(KnownSummaries<'a>),
    /// It was answered, and all known classes were forgotten.
    Forgotten,
}

/// Where a part of a conversation ends without a fault.
#[derive(Clone, Copy, Debug, PartialEq, Eq)]
enum Pause {
    /// The input has ended.
    AtEnd,
    /// All known classes were forgotten.
    Forgotten,
}

/// The class in a file is known as well, if it may be.
fn one_known<'a>(
    alloc: Global,
    bump: &'a Bump,
    profile: Profile,
    known: KnownSummaries<'a>,
    read: &Result<Vec<u8>, CutShort>,
) -> Result<KnownSummaries<'a>, KnownFault>
    ensures { (ks : List KnownClass) → Knows profile ks known.entry
        → AddsKnown profile ks (input_view read.now) result }
{
    let class = admitted(alloc, profile, &known, read)?;
    match with_kept(alloc, bump, known, &class) {
        Ok(known) => Ok(known),
        Err(_) => Err(KnownFault::OutOfMemory),
    }
}

/// The classes in files, which are known from the beginning.
fn known_from<'a>(
    alloc: Global,
    bump: &'a Bump,
    profile: Profile,
    reads: &[Result<Vec<u8>, CutShort>],
) -> Result<KnownSummaries<'a>, ServeFault>
    ensures { Begins profile (map input_view reads.now) result }
{
    let mut known = KnownSummaries::new(alloc);
    for (i, read) in reads.iter().enumerate() {
        match one_known(alloc, bump, profile, known, read) {
            Ok(more) => known = more,
            Err(fault) => {
                let number = i + 1;
                return Err(ServeFault::NotKnown { number, fault });
            }
        }
    }
    Ok(known)
}

/// Answers the next message, if there is one.
fn take_turn<'a, R: Read, W: Write, Q: RandomSource>(
    alloc: Global,
    bump: &'a Bump,
    setting: Setting,
    known: KnownSummaries<'a>,
    source: &Q,
    peer: &mut Peer<R, W>,
) -> Result<Turn<'a>, Stop>
    requires flushed { peer.old.is_flushed ≡ true }
    ensures flushed { OnOk result (peer.new.is_flushed ≡ true) }
    ensures turn { (ks : List KnownClass) → Knows setting.profile ks known.entry
        → TakesTurn setting ks (R.remaining peer.old.input) (R.remaining peer.new.input)
        (W.contents peer.old.output) (W.contents peer.new.output) result }
{
    let Some(message) = peer.next(alloc)? else {
        return Ok(Turn::AtEnd);
    };
    let Ok(hasher) = RandomState::new(source) else {
        return Err(Stop::NoRandom);
    };
    let Outcome { reply, known } = answer(alloc, bump, setting, known, &message, hasher)?;
    peer.reply(alloc, &reply)?;
    match message.kind {
        Kind::Forget => Ok(Turn::Forgotten),
        Kind::Known | Kind::Verify | Kind::Define | Kind::Explain => Ok(Turn::Answered(known)),
    }
}

/// Answers messages until the input ends or all classes are forgotten.
fn serve_round<'a, R: Read, W: Write, Q: RandomSource>(
    alloc: Global,
    bump: &'a Bump,
    setting: Setting,
    known: KnownSummaries<'a>,
    source: &Q,
    peer: &mut Peer<R, W>,
) -> Result<Pause, Stop>
    requires flushed { peer.old.is_flushed ≡ true }
    ensures flushed { OnOk result (peer.new.is_flushed ≡ true) }
    ensures served { (ks : List KnownClass) → Knows setting.profile ks known.entry
        → ServesRound setting ks (R.remaining peer.old.input) (R.remaining peer.new.input)
        (W.contents peer.old.output) (W.contents peer.new.output) result }
{
    let mut known = known;
    for _ in 0..u64::MAX {
        match take_turn(alloc, bump, setting, known, source, peer)? {
            Turn::AtEnd => return Ok(Pause::AtEnd),
            Turn::Forgotten => return Ok(Pause::Forgotten),
            Turn::Answered(next) => known = next,
        }
    }
    Err(Stop::TooMany)
}

/// Answers messages until the input ends, from no known class on. What is forgotten gives back its memory.
fn serve_rounds<R: Read, W: Write, Q: RandomSource>(
    alloc: Global,
    setting: Setting,
    source: &Q,
    peer: &mut Peer<R, W>,
) -> Result<(), Stop>
    requires flushed { peer.old.is_flushed ≡ true }
    ensures flushed { OnOk result (peer.new.is_flushed ≡ true) }
    ensures served { Serves setting [] (R.remaining peer.old.input) (R.remaining peer.new.input)
        (W.contents peer.old.output) (W.contents peer.new.output) result }
{
    for _ in 0..u64::MAX {
        let bump = Bump::new(alloc);
        let known = KnownSummaries::new(alloc);
        match serve_round(alloc, &bump, setting, known, source, peer) {
            Ok(Pause::AtEnd) => return Ok(()),
            Ok(Pause::Forgotten) => {}
            Err(stop) => return Err(stop),
        }
    }
    Err(Stop::TooMany)
}

/// Answers messages until the input ends or all classes are forgotten, where the classes in these files are known from
/// the beginning.
fn serve_first<R: Read, W: Write, Q: RandomSource>(
    alloc: Global,
    setting: Setting,
    reads: Vec<Result<Vec<u8>, CutShort>>,
    source: &Q,
    peer: &mut Peer<R, W>,
) -> Result<Pause, ServeFault>
    requires flushed { peer.old.is_flushed ≡ true }
    ensures flushed { OnOk result (peer.new.is_flushed ≡ true) }
    ensures served { ServesFirst setting (map input_view reads.items) (R.remaining peer.old.input)
        (R.remaining peer.new.input) (W.contents peer.old.output) (W.contents peer.new.output) result }
{
    let bump = Bump::new(alloc);
    let known = known_from(alloc, &bump, setting.profile, &reads)?;
    drop(reads);
    match serve_round(alloc, &bump, setting, known, source, peer) {
        Ok(pause) => Ok(pause),
        Err(stop) => Err(ServeFault::Stopped(stop)),
    }
}

/// Answers each message of a peer by one reply, until the input ends where a message could begin. The classes in these
/// files are known from the beginning, as if each had been sent by `k`: a file that is refused, or whose class's name
/// is known, ends this before anything is read or written.
///
/// A reply has gone out before the next message is read. Of a class that is known its summary is kept, and nothing of
/// it is decoded again.
pub fn serve<R: Read, W: Write, Q: RandomSource>(
    alloc: Global,
    setting: Setting,
    reads: Vec<Result<Vec<u8>, CutShort>>,
    source: &Q,
    peer: &mut Peer<R, W>,
) -> Result<(), ServeFault>
    requires flushed { peer.old.is_flushed ≡ true }
    ensures flushed { OnOk result (peer.new.is_flushed ≡ true) }
    ensures served { ServesKnown setting (map input_view reads.items) (R.remaining peer.old.input)
        (R.remaining peer.new.input) (W.contents peer.old.output) (W.contents peer.new.output) result }
{
    match serve_first(alloc, setting, reads, source, peer)? {
        Pause::AtEnd => Ok(()),
        Pause::Forgotten => match serve_rounds(alloc, setting, source, peer) {
            Ok(()) => Ok(()),
            Err(stop) => Err(ServeFault::Stopped(stop)),
        },
    }
}
