//! A loop before a device, from its beginning, whatever the world answers.

ghost use Rattle.std.specs.Prelude.{◌≡◌, ◌≤◌, ◌<◌, [], false, true, ℕ, List, length, IfOk, OnErr, OnOk};
ghost use Rattle.stored_file.specs.Calls.{Call};
ghost use Rattle.durable_device.specs.Kept.{IsCommittedBut};
ghost use Rattle.durable_machine.specs.Seals.{events_of};
ghost use Rattle.handed_file.specs.Handed.{is_settled, made_calls, told};
ghost use Rattle.tcp_loop.specs.Fair.{IsFair, point_of};
ghost use Rattle.tcp_loop.specs.Holding.{Holds};
ghost use Rattle.tcp_loop.specs.Kept.{phase_of};
ghost use Rattle.tcp_loop.specs.Orderly.{IsOrderly};
ghost use Rattle.tcp_loop.specs.Progress.{RoundsEnd, left_of, most};
ghost use Rattle.tcp_loop.specs.Running.{NeverOwes};
ghost use Rattle.tcp_loop.specs.Stages.{IsReady};
ghost use Rattle.tcp_device.specs.FileCalls.{keeping_of};
ghost use Rattle.tcp_device.specs.Kept.{file_of};
ghost use Rattle.tcp_device.specs.Explained.{DeviceIsExplained, HasNoConnections, MemoryIsExplained};
ghost use Rattle.tcp_device.specs.LoopMeaning.{in_memory, kept_in_file};
ghost use Rattle.tcp_device.specs.Orderly.{free_of};

use crate::durable::DurableTarget;
use crate::keeper::Keeper;
use crate::laws::{devices_are_explained, targets_are_orderly};
use crate::memory::MemoryTarget;
use crate::served::ServedTarget;
use durable_machine::InFile;
use handed_file::HandedFile;
use std::alloc::{AllocError, Global};
use tcp_loop::{Loop, Options, World};

/// A loop before a device that is kept in a file, of which each call was told as done, and all that was done is committed.
///
/// # Errors
///
/// No memory for what it keeps.
pub fn begin_in_file(
    alloc: Global,
    served: ServedTarget,
    keeper: Keeper<InFile<HandedFile>>,
    options: Options,
) -> Result<Loop<DurableTarget>, AllocError>
    requires kept { IsCommittedBut (events_of keeper.events.waiting) served.device keeper.events.journal.gate (told (file_of keeper)) }
    requires none { events_of keeper.events.waiting ≡ [] }
    requires settled { is_settled (file_of keeper) ≡ true }
    ensures ready { IfOk result (λ l. IsReady l.stage l.incoming.items (free_of l.target.state)) }
    ensures holds { IfOk result (λ l.
        Holds kept_in_file (made_calls (file_of keeper)) served [] (phase_of l.stage) l.target l.incoming.items l.clock) }
    ensures fair { IfOk result (λ l. (o : IsOrderly kept_in_file free_of)
        → ((place : ℕ) → place < 40 → o.is_there place served ≡ false)
        → IsFair kept_in_file free_of o (point_of l.stage) [] l.hosts l.incoming.items l.target.state) }
    ensures ends { IfOk result (λ l. left_of l.stage l.hosts.there l.lines l.finished ≤ most) }
{
    let target = DurableTarget::of(alloc, served, keeper);
    Loop::new(alloc, target, options)
}

/// A loop before a device in memory alone, which is saved at the end.
///
/// # Errors
///
/// No memory for what it keeps.
pub fn begin_in_memory(
    alloc: Global,
    served: ServedTarget,
    options: Options,
) -> Result<Loop<MemoryTarget>, AllocError>
    ensures ready { IfOk result (λ l. IsReady l.stage l.incoming.items (free_of l.target.served)) }
    ensures holds { IfOk result (λ l. (opened : List Call) × Holds in_memory opened served [] (phase_of l.stage)
        (record { state = l.target.served; file = keeping_of l.target.file }) l.incoming.items l.clock) }
    ensures fair { IfOk result (λ l. (o : IsOrderly in_memory free_of)
        → ((place : ℕ) → place < 40 → o.is_there place served ≡ false)
        → IsFair in_memory free_of o (point_of l.stage) [] l.hosts l.incoming.items l.target.served) }
    ensures ends { IfOk result (λ l. left_of l.stage l.hosts.there l.lines l.finished ≤ most) }
{
    let file = HandedFile::new(alloc, &[]);
    let target = MemoryTarget {
        served,
        file,
        alloc,
    };
    Loop::new(alloc, target, options)
}

// ---- the law

/// What a program does that serves a device in a file: its loop begins, and the world makes the operations that it asks for. Whatever came
/// of them, and after however many, what was made by then is explained by what the device did, and no wait owed a host anything.
///
/// # Errors
///
/// No memory for what the loop keeps: then nothing was made.
pub fn serve_in_file<W: World>(
    alloc: Global,
    served: ServedTarget,
    keeper: Keeper<InFile<HandedFile>>,
    options: Options,
    world: &mut W,
    operations: u64,
) -> Result<(), AllocError>
    requires kept { IsCommittedBut (events_of keeper.events.waiting) served.device keeper.events.journal.gate (told (file_of keeper)) }
    requires none { events_of keeper.events.waiting ≡ [] }
    requires settled { is_settled (file_of keeper) ≡ true }
    requires begins { HasNoConnections served }
    requires nothing { W.trace world.old ≡ [] }
    ensures made { OnOk result (length (W.trace world.new) ≡ operations) }
    ensures explained { OnOk result (DeviceIsExplained (made_calls (file_of keeper)) served (W.trace world.new)) }
    ensures fair { OnOk result (NeverOwes (W.trace world.new)) }
    ensures rounds { OnOk result (RoundsEnd (W.trace world.new)) }
    ensures refused { OnErr result (W.trace world.new ≡ []) }
{
    devices_are_explained();
    targets_are_orderly();
    let mut serving = begin_in_file(alloc, served, keeper, options)?;
    serving.run(alloc, world, operations);
    serving.is_explained();
    Ok(())
}

/// And the same of a device in memory alone.
///
/// # Errors
///
/// No memory for what the loop keeps: then nothing was made.
pub fn serve_in_memory<W: World>(
    alloc: Global,
    served: ServedTarget,
    options: Options,
    world: &mut W,
    operations: u64,
) -> Result<(), AllocError>
    requires begins { HasNoConnections served }
    requires nothing { W.trace world.old ≡ [] }
    ensures made { OnOk result (length (W.trace world.new) ≡ operations) }
    ensures explained { OnOk result ((opened : List Call) × MemoryIsExplained opened served (W.trace world.new)) }
    ensures fair { OnOk result (NeverOwes (W.trace world.new)) }
    ensures rounds { OnOk result (RoundsEnd (W.trace world.new)) }
    ensures refused { OnErr result (W.trace world.new ≡ []) }
{
    devices_are_explained();
    targets_are_orderly();
    let mut serving = begin_in_memory(alloc, served, options)?;
    serving.run(alloc, world, operations);
    serving.is_explained();
    Ok(())
}
