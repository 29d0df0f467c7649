//! A stream, block by block.

ghost use Rattle.std.specs.Prelude.{◌≡◌, ◌≤◌, ◌<◌, ◌+◌, ◌-◌, ◌*◌, ◌/◌, ◌^◌, ◌⊎◌, ℕ, ℤ, [], Err as Fails, OnOk, OnErr, List, drop, length, pos, replicate, take};
ghost use Rattle.graph_model.specs.Bounds.{AreUpTo};
ghost use Rattle.gh_outside.specs.Causes.{Rose};
ghost use Rattle.gh_outside.specs.Holdings.{IsMissing, IsPast, KeepsOthers};
ghost use Rattle.wav_pcm.specs.Files.{data_size, IsHead};
ghost use Rattle.wav_pcm.specs.Samples.{bytes_of, IsSize};
ghost use Rattle.engine_model.specs.Engines.{IsSame, Stands};
ghost use Rattle.streaming.specs.Appends.{IsAppended, IsPartAppended};
ghost use Rattle.streaming.specs.Blocks.{all_frames, AreFrames, put_of, AreLengths, BreaksOff, HasPut, HasPutPart, HasRoom, HasStreamed, IsRendered, MayStream};
ghost use Rattle.streaming.specs.declared.ends.StreamFault.TheVariants as Fault;

use crate::ends::{Incoming, Outgoing, StreamFault};
use crate::room::Room;
use engine::Engine;
use fork_join::Open;
use gh_outside::{Failed, Folder};
use std::thread::Threads;
use wav_pcm::{put_frames, read_frames};

/// Makes zeros of samples.
fn silence(samples: &mut [i64])
    ensures { samples.new ≡ replicate (length samples.old) (pos 0) }
{
    samples.fill(0);
}

/// Leaves in `into` so many frames, from the `first` on: what stands in the file, and zeros after it.
fn take_in<F: Folder>(
    folder: &mut F,
    from: &Incoming,
    first: u64,
    count: usize,
    bytes: &mut [u8],
    into: &mut [i64],
) -> Result<(), Failed>
    requires head { IsHead from.now.head }
    requires there { ¬ IsPast from.now.name.now (from.now.head.from + data_size from.now.head) (F.held folder.old) }
    requires count { length into.old ≡ count * from.now.head.channels }
    requires room { length into.old * (from.now.head.bits / 8) ≤ length bytes.old }
    requires within { first + count ≤ all_frames from.now }
    ensures held { F.held folder.new ≡ F.held folder.old }
    ensures frames { OnOk result (AreFrames from.now first count into.new (F.held folder.old)) }
    ensures small { OnOk result (AreUpTo (2 ^ 31) into.new) }
    ensures failed { OnErr result (Rose (F.read_faults folder.old) (F.read_faults folder.new)) }
    ensures reads { F.read_faults folder.old ≤ F.read_faults folder.new }
    ensures writes { F.write_faults folder.new ≡ F.write_faults folder.old }
    ensures len { length into.new ≡ length into.old }
    ensures room_stays { length bytes.new ≡ length bytes.old }
{
    silence(into);
    let left = from.head.frames.saturating_sub(first);
    let there = left.min(count as u64) as usize * from.head.channels as usize;
    if there == 0 {
        return Ok(());
    }
    let size = there * (from.head.bits as usize / 8);
    read_frames(
        folder,
        from.name,
        &from.head,
        first,
        &mut bytes[..size],
        &mut into[..there],
    )
}

/// Appends samples, if there are any.
fn put_out<F: Folder>(
    folder: &mut F,
    to: &Outgoing,
    samples: &[i64],
    bytes: &mut [u8],
) -> Result<(), Failed>
    requires size { IsSize to.now.bits }
    requires room { length samples.now * (to.now.bits / 8) ≤ length bytes.old }
    ensures others { KeepsOthers to.now.name.now (F.held folder.old) (F.held folder.new) }
    ensures ok { OnOk result (IsAppended to.now.name.now (bytes_of to.now.bits samples.now) (F.held folder.old) (F.held folder.new)) }
    ensures part { OnErr result (IsPartAppended to.now.name.now (bytes_of to.now.bits samples.now) (F.held folder.old)
        (F.held folder.new)) }
    ensures failed { OnErr result (IsMissing to.now.name.now (F.held folder.old)
        ⊎ Rose (F.write_faults folder.old) (F.write_faults folder.new)) }
    ensures reads { F.read_faults folder.new ≡ F.read_faults folder.old }
    ensures writes { F.write_faults folder.old ≤ F.write_faults folder.new }
    ensures room_stays { length bytes.new ≡ length bytes.old }
{
    if samples.is_empty() {
        return Ok(());
    }
    let size = samples.len() * (to.bits as usize / 8);
    put_frames(folder, to.name, to.bits, samples, &mut bytes[..size])
}

/// How many samples of a block that begins with frame `first` are left out.
fn left_out(to: &Outgoing, first: u64, count: usize) -> usize
    requires count { count ≤ 2 ^ 34 }
    requires channels { to.now.channels ≤ 32 }
    ensures few { result ≤ count * to.now.channels }
    ensures all { (went : List ℤ) → length went ≡ count * to.now.channels
        → drop result went ≡ drop ((to.now.skipped - first) * to.now.channels) went }
{
    let frames = to.skipped.saturating_sub(first).min(count as u64);
    frames as usize * to.channels as usize
}

/// Reads so many frames, from the `first` on, and renders them: what goes out comes first in `went`.
fn render_next<T: Threads + Sync, F: Folder>(
    rt: &T,
    folder: &mut F,
    from: &Incoming,
    to: &Outgoing,
    engine: &mut Engine,
    first: u64,
    count: usize,
    read: &mut [u8],
    came: &mut [i64],
    went: &mut [i64],
) -> Result<(), Failed>
    requires may { MayStream from.now to.now engine.old (F.held folder.old) }
    requires some { 1 ≤ count }
    requires most { count ≤ engine.old.block }
    requires within { first + count ≤ all_frames from.now }
    requires frames { engine.old.frames + count < 2 ^ 63 }
    requires reads_fit { count * from.now.head.channels * (from.now.head.bits / 8) ≤ length read.old }
    requires come { count * from.now.head.channels ≤ length came.old }
    requires go { count * to.now.channels ≤ length went.old }
    ensures held { F.held folder.new ≡ F.held folder.old }
    ensures rendered { OnOk result (IsRendered from.now first count (take (count * to.now.channels) went.new)
        (F.held folder.old) engine.old engine.new) }
    ensures count { OnOk result (engine.new.frames ≡ engine.old.frames + count) }
    ensures unread { OnErr result (engine.new ≡ engine.old) }
    ensures failed { OnErr result (Rose (F.read_faults folder.old) (F.read_faults folder.new)) }
    ensures reads { F.read_faults folder.old ≤ F.read_faults folder.new }
    ensures writes { F.write_faults folder.new ≡ F.write_faults folder.old }
    ensures read_stays { length read.new ≡ length read.old }
    ensures came_stays { length came.new ≡ length came.old }
    ensures went_stays { length went.new ≡ length went.old }
{
    let ins = count * from.head.channels as usize;
    let outs = count * to.channels as usize;
    take_in(folder, from, first, count, read, &mut came[..ins])?;
    engine.render(rt, &Open, &came[..ins], &mut went[..outs]);
    Ok(())
}

/// Appends what is kept of so many frames, from the `first` on, that stand first in `went`.
fn put_next<F: Folder>(
    folder: &mut F,
    to: &Outgoing,
    first: u64,
    count: usize,
    went: &[i64],
    put: &mut [u8],
) -> Result<(), Failed>
    requires size { IsSize to.now.bits }
    requires count { count ≤ 2 ^ 34 }
    requires channels { to.now.channels ≤ 32 }
    requires go { count * to.now.channels ≤ length went.now }
    requires room { count * to.now.channels * (to.now.bits / 8) ≤ length put.old }
    ensures others { KeepsOthers to.now.name.now (F.held folder.old) (F.held folder.new) }
    ensures ok { OnOk result (IsAppended to.now.name.now (put_of to.now first (take (count * to.now.channels) went.now)) (F.held folder.old)
        (F.held folder.new)) }
    ensures part { OnErr result (IsPartAppended to.now.name.now (put_of to.now first (take (count * to.now.channels) went.now))
        (F.held folder.old) (F.held folder.new)) }
    ensures failed { OnErr result (IsMissing to.now.name.now (F.held folder.old)
        ⊎ Rose (F.write_faults folder.old) (F.write_faults folder.new)) }
    ensures reads { F.read_faults folder.new ≡ F.read_faults folder.old }
    ensures writes { F.write_faults folder.old ≤ F.write_faults folder.new }
    ensures put_stays { length put.new ≡ length put.old }
{
    let end = count * to.channels as usize;
    let kept = &went[left_out(to, first, count)..end];
    put_out(folder, to, kept, put)
}

/// Takes so many frames, from the `first` on, through the engine.
fn stream_block<T: Threads + Sync, F: Folder>(
    rt: &T,
    folder: &mut F,
    from: &Incoming,
    to: &Outgoing,
    engine: &mut Engine,
    room: &mut Room,
    first: u64,
    count: usize,
) -> Result<(), StreamFault>
    requires may { MayStream from.now to.now engine.old (F.held folder.old) }
    requires room { HasRoom from.now to.now engine.old.block room.old }
    requires some { 1 ≤ count }
    requires most { count ≤ engine.old.block }
    requires within { first + count ≤ all_frames from.now }
    requires frames { engine.old.frames + count < 2 ^ 63 }
    ensures others { KeepsOthers to.now.name.now (F.held folder.old) (F.held folder.new) }
    ensures done { OnOk result (HasStreamed from.now to.now first count (F.held folder.old) engine.old (F.held folder.new) engine.new) }
    ensures count { OnOk result (engine.new.frames ≡ engine.old.frames + count) }
    ensures unread { result ≡ Fails Fault.Read → (F.held folder.new ≡ F.held folder.old) × (engine.new ≡ engine.old) }
    ensures read_failed { result ≡ Fails Fault.Read → Rose (F.read_faults folder.old) (F.read_faults folder.new) }
    ensures broken { result ≡ Fails Fault.Write
        → BreaksOff from.now to.now first count (F.held folder.old) engine.old (F.held folder.new) engine.new }
    ensures write_failed { result ≡ Fails Fault.Write
        → IsMissing to.now.name.now (F.held folder.old) ⊎ Rose (F.write_faults folder.old) (F.write_faults folder.new) }
    ensures reads { F.read_faults folder.old ≤ F.read_faults folder.new }
    ensures writes { F.write_faults folder.old ≤ F.write_faults folder.new }
    ensures room_stays { HasRoom from.now to.now engine.old.block room.new }
{
    let went: &mut [i64] = &mut room.went;
    match render_next(
        rt,
        folder,
        from,
        to,
        engine,
        first,
        count,
        &mut room.read,
        &mut room.came,
        went,
    ) {
        Ok(()) => {}
        Err(Failed) => return Err(StreamFault::Read),
    }
    match put_next(folder, to, first, count, went, &mut room.put) {
        Ok(()) => Ok(()),
        Err(Failed) => Err(StreamFault::Write),
    }
}

/// Takes all frames that come in through the engine, in blocks of these lengths, which are repeated in turn, the last
/// of them cut to what is left. What is kept of each block is one append, if it is any. It takes no memory.
///
/// # Errors
///
/// `Read` where a block could not be read, and then just the blocks before it were rendered and appended; `Write` where
/// a block could not be appended whole, which was rendered before.
pub fn stream<T: Threads + Sync, F: Folder>(
    rt: &T,
    folder: &mut F,
    from: &Incoming,
    to: &Outgoing,
    lengths: &[u32],
    engine: &mut Engine,
    room: &mut Room,
) -> Result<(), StreamFault>
    requires may { MayStream from.now to.now engine.old (F.held folder.old) }
    requires lengths { AreLengths engine.old.block lengths.now }
    requires room { HasRoom from.now to.now engine.old.block room.old }
    requires new { Stands engine.old [] }
    ensures others { KeepsOthers to.now.name.now (F.held folder.old) (F.held folder.new) }
    ensures same { IsSame engine.old engine.new }
    ensures done { OnOk result (HasPut from.now to.now (all_frames from.now) (F.held folder.old) engine.old
        (F.held folder.new) engine.new) }
    ensures unread { result ≡ Fails Fault.Read
        → (k : ℕ) × (k < all_frames from.now) × HasPut from.now to.now k (F.held folder.old) engine.old (F.held folder.new) engine.new }
    ensures read_failed { result ≡ Fails Fault.Read → Rose (F.read_faults folder.old) (F.read_faults folder.new) }
    ensures broken { result ≡ Fails Fault.Write
        → (k : ℕ) × (k ≤ all_frames from.now) × HasPutPart from.now to.now k (F.held folder.old) engine.old (F.held folder.new) engine.new }
    ensures write_failed { result ≡ Fails Fault.Write
        → IsMissing to.now.name.now (F.held folder.old) ⊎ Rose (F.write_faults folder.old) (F.write_faults folder.new) }
    ensures reads { F.read_faults folder.old ≤ F.read_faults folder.new }
    ensures writes { F.write_faults folder.old ≤ F.write_faults folder.new }
{
    let frames = from.head.frames + from.silent;
    let mut done = 0;
    let mut turn = 0;
    while done < frames {
        let count = u64::from(lengths[turn]).min(frames - done);
        match stream_block(rt, folder, from, to, engine, room, done, count as usize) {
            Ok(()) => {}
            Err(fault) => return Err(fault),
        }
        done += count;
        turn = (turn + 1) % lengths.len();
    }
    Ok(())
}
