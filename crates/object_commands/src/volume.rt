// A volume over any store of objects.
ghost use Rattle.std.specs.Prelude.{◌≡◌, true, false, length, Err, IfOk, IfErr, OnOk, FitsSigned};
ghost use Rattle.std.specs.Borrow.{Lends, sem};
ghost use Rattle.std.specs.Int.{w64};
ghost use Rattle.std.specs.FinMap as map;
ghost use Rattle.posix_profile.specs.Requests.{command_of, stamped_of};
ghost use Rattle.posix_profile.specs.Runs.{takes_no_memory, is_stop};
ghost use Rattle.posix_profile.specs.declared.reply.Errno.TheVariants as errors;
ghost use Rattle.posix_profile.specs.declared.reply.Reply.TheVariants as replies;
ghost use Rattle.object_store.specs.Stores.{KeepsPower};
ghost use Rattle.volume_terms.specs.declared.fault.StoreFault.TheVariants as faults;
ghost use Rattle.command_plans.specs.Classes.{makes_no_call};
ghost use Rattle.command_plans.specs.Plans.{Works, TakesNone, LeavesDevice, CanDo, InRange, does_nothing, frees, leaves_device, handles_after};
ghost use Rattle.command_plans.specs.Tables.{handles_in};
ghost use Rattle.object_commands.specs.States.{OfObjects};
ghost use Rattle.object_commands.specs.Tasks.{PlansAt, task_of};

use crate::naming::{link, mkdir, rmdir, unlink};
use crate::opening::{close, open};
use crate::rename::rename;
use crate::reporting::{list, read, read_into, seek, space, stat};
use crate::syncing::{fsync, sync};
use crate::writing::{truncate, write};
use command_plans::plan::{HandleChange, Plan, StoreWork, hand_on};
use command_plans::stamp::is_stamped;
use command_plans::table::DescriptorTable;
use object_store::{ObjectStore, Refusal};
use posix_profile::{Errno, Info, Reply, Request, Stamped, StampedRequest};
use std::alloc::{AllocError, Global};
use volume_terms::StoreFault;

/// The number that a command gives.
fn signed(number: &i64) -> i64
    ensures value { result ≡ number.now }
    ensures range { FitsSigned w64 result }
{
    *number
}

/// What a command is to do.
fn plan<'a, S: ObjectStore>(
    alloc: Global,
    store: &mut S,
    table: &DescriptorTable,
    read_only: bool,
    issued: &StampedRequest<'a>,
) -> Result<Plan<'a>, Refusal>
    ensures reads { S.meaning.reads store.old store.new }
    ensures power { KeepsPower S.meaning store.old store.new result }
    ensures plans { PlansAt S.meaning (store.old, store.new) table.now (task_of read_only issued.now) result }
    ensures memory { takes_no_memory (command_of issued.now.request) ≡ true → TakesNone result }
    ensures leaves { makes_no_call (command_of issued.now.request) ≡ true → (store.new ≡ store.old) × LeavesDevice result }
{
    let moment = issued.moment;
    match &issued.request {
        Request::Open { path, flags } => {
            open(alloc, store, table, read_only, moment, *path, *flags)
        }
        Request::Close { fd } => hand_on(close(store, table, *fd)),
        Request::Read { fd, count } => read(alloc, store, table, *fd, *count),
        Request::Write { fd, bytes } => hand_on(write(store, table, moment, *fd, *bytes)),
        Request::Seek { fd, offset, whence } => {
            hand_on(seek(store, table, *fd, signed(offset), *whence))
        }
        Request::Truncate { fd, length } => {
            hand_on(truncate(store, table, moment, *fd, signed(length)))
        }
        Request::Fsync { fd } => hand_on(fsync(table, read_only, *fd)),
        Request::Sync => Ok(sync(read_only)),
        Request::Stat { path } => stat(alloc, store, *path),
        Request::Mkdir { path } => mkdir(alloc, store, read_only, moment, *path),
        Request::Rmdir { path } => rmdir(alloc, store, table, read_only, moment, *path),
        Request::Link { old, new } => link(alloc, store, read_only, moment, *old, *new),
        Request::Unlink { path } => unlink(alloc, store, table, read_only, moment, *path),
        Request::Rename { old, new } => {
            rename(alloc, store, table, read_only, moment, *old, *new)
        }
        Request::List { path } => list(alloc, store, *path),
        Request::Space => Ok(space(store)),
    }
}

/// Does what a plan asks of the store.
fn work<S: ObjectStore>(store: &mut S, issued: &StoreWork<'_>) -> Result<(), StoreFault>
    ensures lasts { S.meaning.lasts store.old store.new }
    ensures reads { does_nothing issued.now ≡ true → S.meaning.reads store.old store.new }
    ensures power { OnOk result (S.meaning.has_power store.new ≡ S.meaning.has_power store.old) }
    ensures leaves { leaves_device issued.now ≡ true → S.meaning.leaves store.old store.new }
    ensures works { OfObjects S.meaning store.old (λ z objects.
        CanDo z objects issued.now → Works S.meaning objects issued.now store.old store.new result) }
    ensures fails { IfErr result (λ fault. does_nothing issued.now ≡ false) }
    ensures refused { result ≡ Err faults.NoMemory → S.meaning.reads store.old store.new }
    ensures memory { frees issued.now ≡ true → result ≡ Err faults.NoMemory → ⊥ }
{
    match issued {
        StoreWork::Nothing => Ok(()),
        StoreWork::Change(change) => store.apply(change),
        StoreWork::Commit => store.commit(),
    }
}

/// Changes the descriptors.
fn handle(table: &mut DescriptorTable, change: HandleChange)
    ensures { InRange change → handles_in table.new ≡ handles_after (handles_in table.old) change }
{
    match change {
        HandleChange::Nothing => {}
        HandleChange::Remove(fd) => table.remove(fd),
        HandleChange::Put(fd, description) => table.put(fd, description),
    }
}

/// Whether a reply stops the volume: it is EIO.
fn is_stop(reply: &Reply) -> bool
    ensures { result ≡ is_stop reply.now }
{
    matches!(reply, Reply::Error(Errno::EIO))
}

/// A volume: a store, and what its descriptors refer to. One that is stopped answers EIO to each command.
#[derive(Drop)]
pub struct Volume<S> {
    alloc: Global,
    store: S,
    table: DescriptorTable,
    read_only: bool,
    stopped: bool,
}

impl<S: ObjectStore> Volume<S> {
    ghost use Rattle.command_plans.specs.Tables.{handles_in};
    ghost use Rattle.object_commands.specs.Volumes.{HasParts, ended, store_of, handles_of, is_read_only, is_stopped, with_stop, with_store};
    ghost use Rattle.object_commands.specs.contracts.volume.Volume.{the_row};
    ghost use Rattle.object_commands.specs.Serving.{EndsAs, IsServed, LeavesPower, StaysAsItWas, StopsUnread, is_refusal};
    ghost use Rattle.object_commands.specs.Endings.{CarriesOut, OfVolume, ReadsOrLeaves, ReportsRefusal};
    ghost use Rattle.object_commands.specs.Reads.{LeavesRest, asked_of, read_reply, reading};
    ghost use Rattle.object_commands.specs.Running.{OfFirst, Runs};
    ghost use Rattle.object_commands.specs.Describing.{Describes};

    /// A volume over the store: no descriptor is open.
    pub fn new(alloc: Global, store: S, read_only: bool) -> Result<Volume<S>, (S, AllocError)>
        ensures volume { IfOk result (HasParts store map.empty read_only false) }
        ensures given_back { IfErr result (λ back. back.0 ≡ store) }
    {
        match DescriptorTable::new(alloc) {
            Ok(table) => Ok(Volume::over(alloc, store, table, read_only)),
            Err(error) => Err((store, error)),
        }
    }

    /// A volume over the store, with these descriptors.
    pub fn over(alloc: Global, store: S, table: DescriptorTable, read_only: bool) -> Volume<S>
        ensures { HasParts store (handles_in table) read_only false result }
    {
        Volume {
            alloc,
            store,
            table,
            read_only,
            stopped: false,
        }
    }

    /// A volume over another store, with the same descriptors: it goes on, or is stopped, as this one.
    pub fn copy_over(&self, store: S) -> Result<Volume<S>, (S, AllocError)>
        ensures volume { IfOk result (HasParts store (handles_of self.now) (is_read_only self.now) (is_stopped self.now)) }
        ensures given_back { IfErr result (λ back. back.0 ≡ store) }
    {
        match self.table.copy(self.alloc) {
            Ok(table) => Ok(Volume {
                alloc: self.alloc,
                store,
                table,
                read_only: self.read_only,
                stopped: self.stopped,
            }),
            Err(error) => Err((store, error)),
        }
    }

    /// Its store.
    pub fn store(&self) -> &S
        ensures { result.now ≡ store_of self.now }
    {
        &self.store
    }

    /// Lends its store. Its caller leaves the objects as they are, or stops the volume.
    pub fn store_mut(&mut self) -> &mut S
        ensures store { result.now ≡ store_of self.old }
        ensures* writes_back { sem 𝓛 (Lends (the_row S.row) S.row self.entry result (with_store self.old)) }
    {
        &mut self.store
    }

    /// Stops it: it answers EIO to each command from now on.
    pub fn stop(&mut self)
        ensures { self.new ≡ with_stop self.old }
    {
        self.stopped = true;
    }

    /// Gives its store back.
    pub fn into_store(self) -> S
        ensures { result ≡ store_of self }
    {
        let Volume {
            alloc: _,
            store,
            table: _,
            read_only: _,
            stopped: _,
        } = self;
        store
    }

    /// Whether commands that would change it are refused.
    pub fn read_only(&self) -> bool
        ensures { result ≡ is_read_only self.now }
    {
        self.read_only
    }

    /// Whether it answers EIO to each command.
    pub fn stopped(&self) -> bool
        ensures { result ≡ is_stopped self.now }
    {
        self.stopped
    }

    /// What Stat reports of the object that a descriptor refers to, which need not have a name. It reads nothing.
    pub fn describe(&self, fd: u32) -> Result<Info, Errno>
        ensures stopped { is_stopped self.now ≡ true → result ≡ Err errors.EIO }
        ensures describes { is_stopped self.now ≡ false → OfVolume S.meaning self.now (λ z s. Describes s fd result) }
    {
        if self.stopped {
            return Err(Errno::EIO);
        }
        let Some(description) = self.table.get(fd) else {
            return Err(Errno::EBADF);
        };
        match self.store.info(description.object) {
            Some(info) => Ok(info),
            None => Err(Errno::EBADF),
        }
    }

    /// The error where memory was refused: where the device's power was lost meanwhile it is the stop. Its caller stops the volume
    /// by it.
    fn pass_over(&mut self) -> Errno
        ensures same { self.new ≡ record self.old { store = store_of self.new } }
        ensures reads { S.meaning.reads (store_of self.old) (store_of self.new) }
        ensures reports { ReportsRefusal S.meaning (store_of self.new) (replies.Error result) }
    {
        if self.store.has_power() {
            Errno::ENOMEM
        } else {
            Errno::EIO
        }
    }

    /// Carries out a plan and replies: an error changes nothing. Its caller stops the volume by the reply.
    fn carry_out(&mut self, plan: Plan<'_>) -> Reply
        ensures keeps { is_read_only self.new ≡ is_read_only self.old }
        ensures lasts { S.meaning.lasts (store_of self.old) (store_of self.new) }
        // A reply other than EIO is given by a device that has not lost its power in the command.
        ensures power { LeavesPower S.meaning self.old result self.new }
        ensures reads { does_nothing plan.entry.work ≡ true → S.meaning.reads (store_of self.old) (store_of self.new) }
        ensures leaves { leaves_device plan.entry.work ≡ true → S.meaning.leaves (store_of self.old) (store_of self.new) }
        ensures refuses { is_refusal result ≡ true → StaysAsItWas S.meaning self.old self.new }
        ensures ends { CarriesOut S.meaning self.old plan.entry result (ended self.new result) }
    {
        if let Reply::Error(error) = plan.reply {
            return Reply::Error(error);
        }
        match work(&mut self.store, &plan.work) {
            Ok(()) => {
                handle(&mut self.table, plan.handles);
                plan.reply
            }
            Err(StoreFault::NoMemory) => Reply::Error(self.pass_over()),
            Err(StoreFault::Device) => Reply::Error(Errno::EIO),
            Err(StoreFault::Worn) => Reply::Error(Errno::EIO),
        }
    }

    /// Does a command and replies to it. Its caller stops the volume by the reply.
    fn answer(&mut self, issued: &StampedRequest<'_>) -> Reply
        ensures keeps { is_read_only self.new ≡ is_read_only self.old }
        ensures lasts { S.meaning.lasts (store_of self.old) (store_of self.new) }
        // A reply other than EIO is given by a device that has not lost its power in the command.
        ensures power { LeavesPower S.meaning self.old result self.new }
        ensures leaves { makes_no_call (command_of issued.now.request) ≡ true → S.meaning.leaves (store_of self.old) (store_of self.new) }
        ensures refuses { is_refusal result ≡ true → StaysAsItWas S.meaning self.old self.new }
        ensures only { is_read_only self.old ≡ true → OfVolume S.meaning self.old (λ z s.
            ReadsOrLeaves S.meaning (store_of self.old) (store_of self.new)) }
        // A read-only volume stops only where a read failed.
        ensures unread { is_read_only self.old ≡ true → StopsUnread S.meaning self.old result self.new }
        ensures ends { EndsAs S.meaning self.old (stamped_of issued.now) result (ended self.new result) }
    {
        is_stamped(issued);
        match plan(
            self.alloc,
            &mut self.store,
            &self.table,
            self.read_only,
            issued,
        ) {
            Ok(plan) => self.carry_out(plan),
            Err(Refusal::Error(error)) => Reply::Error(error),
            Err(Refusal::Fault(StoreFault::NoMemory)) => Reply::Error(self.pass_over()),
            Err(Refusal::Fault(StoreFault::Device)) => Reply::Error(Errno::EIO),
            Err(Refusal::Fault(StoreFault::Worn)) => Reply::Error(Errno::EIO),
        }
    }

    /// Does a command and replies to it.
    pub fn ask(&mut self, issued: &StampedRequest<'_>) -> Reply
        ensures { IsServed S.meaning self.old (stamped_of issued.now) result self.new }
    {
        if self.stopped {
            return Reply::Error(Errno::EIO);
        }
        let reply = self.answer(issued);
        self.stopped = is_stop(&reply);
        reply
    }

    /// Does a command that is a value, and replies to it.
    pub fn call(&mut self, stamped: &Stamped) -> Reply
        ensures { IsServed S.meaning self.old stamped.now result self.new }
    {
        self.ask(&stamped.as_request())
    }

    /// Reads into a buffer. Its caller stops the volume by the answer.
    fn fill(&mut self, fd: u32, buffer: &mut [u8]) -> Result<usize, Errno>
        ensures size { length buffer.new ≡ length buffer.old }
        ensures rest { LeavesRest buffer.old buffer.new result }
        ensures keeps { is_read_only self.new ≡ is_read_only self.old }
        ensures reads { S.meaning.reads (store_of self.old) (store_of self.new) }
        ensures lasts { S.meaning.lasts (store_of self.old) (store_of self.new) }
        ensures power { LeavesPower S.meaning self.old (read_reply buffer.new result) self.new }
        ensures refuses { is_refusal (read_reply buffer.new result) ≡ true → StaysAsItWas S.meaning self.old self.new }
        ensures unread { StopsUnread S.meaning self.old (read_reply buffer.new result) self.new }
        ensures ends { EndsAs S.meaning self.old (reading fd (asked_of buffer.old)) (read_reply buffer.new result) (ended self.new (read_reply buffer.new result)) }
    {
        match read_into(&mut self.store, &self.table, fd, buffer) {
            Ok(filled) => {
                handle(&mut self.table, HandleChange::Put(fd, filled.description));
                Ok(filled.count)
            }
            Err(Refusal::Error(error)) => Err(error),
            Err(Refusal::Fault(StoreFault::NoMemory)) => Err(self.pass_over()),
            Err(Refusal::Fault(StoreFault::Device)) => Err(Errno::EIO),
            Err(Refusal::Fault(StoreFault::Worn)) => Err(Errno::EIO),
        }
    }

    /// Reads at a descriptor's offset into a buffer, as the command of as many bytes as it has room for, and returns how many were
    /// read. What lies past them in the buffer stays; after EIO and ENOMEM it may hold anything.
    pub fn read_into(&mut self, fd: u32, buffer: &mut [u8]) -> Result<usize, Errno>
        ensures size { length buffer.new ≡ length buffer.old }
        ensures rest { LeavesRest buffer.old buffer.new result }
        ensures served { IsServed S.meaning self.old (reading fd (asked_of buffer.old)) (read_reply buffer.new result) self.new }
    {
        if self.stopped {
            return Err(Errno::EIO);
        }
        let answer = self.fill(fd, buffer);
        self.stopped = matches!(answer, Err(Errno::EIO));
        answer
    }

    /// Does the commands in turn and adds their replies at the end of the vector. Where a reply finds no room its command
    /// is not begun, nor is any after it.
    pub fn run(&mut self, commands: &[Stamped], replies: &mut Vec<Reply>) -> Result<(), AllocError>
        ensures keeps { is_read_only self.new ≡ is_read_only self.old }
        ensures lasts { S.meaning.lasts (store_of self.old) (store_of self.new) }
        ensures runs { OfFirst commands.now result (λ n.
            Runs S.meaning commands.now n replies.old.items replies.new.items self.old self.new) }
    {
        for i in 0..commands.len() {
            replies.reserve(1)?;
            let reply = self.call(&commands[i]);
            replies.push(reply)?;
        }
        Ok(())
    }
}
