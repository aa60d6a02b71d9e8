//! Several readers as one.

ghost use Rattle.std.specs.Prelude.{◌≡◌, ◌+◌, ◌^◌, ◌<◌, [], length, map, set, IfOk, OnErr, IfSome, IfNone, IsTrue, MatchOption, slice_get, None, true, false};
ghost use Rattle.ctf_stream.specs.Owned as owned;
ghost use Rattle.ctf_stream.specs.Reader.{coming, rest_of, HasItem, OrRefused, IsFetched, IsOnLine, IsAllTaken};
ghost use Rattle.ctf_stream.specs.Shown.{IsMadeTold};
ghost use Rattle.ctf_merge.specs.Merged.{merged};
ghost use Rattle.ctf_merge.specs.Given.{Gives, GivesFirst, GivesFront, GivesRoom};
ghost use Rattle.ctf_merge.specs.Heads.{ShowsHead};
ghost use Rattle.ctf_merge.specs.Merges.{coming_of, first_now, number_in, fault_in, names_of, traces_of, writes_of, given_by, given_of, room_of, NoItemComes, MergedOrRefused, ComingRises, EachRises, EachFetched, EachTells, EachOnLine, EachAllTaken, Fetched, EachIsFetched, GoesOn, IsNext, RoomLeft, LeavesOne, LeavesFront, EachComes};
ghost use Rattle.ctf_merge.specs.Finding.{Finds};
ghost use Rattle.ctf_merge.specs.Stages.{going, is_over, stage_of, Stands};
ghost use Rattle.ctf_merge.specs.Turns.{turn_at, fault_at};

use crate::fault::MergeFault;
use crate::turn::Turn;
use crate::turns::TournamentTree;
use ctf_bits::Source;
use ctf_list::NoMemory;
use ctf_packet::StreamFault;
use ctf_stream::{CurrentItem, OwnedItem, Peeked, StreamReader};
use std::alloc::Global;
use std::marker::Model;

/// What comes first of several streams.
#[derive(Clone, Copy)]
enum First {
    /// The item of the stream of this number.
    Item(usize),
    /// The fault of the stream of this number.
    Fault(usize, StreamFault),
    Nothing,
}

/// How far a merge has come.
#[derive(Clone, Copy)]
pub(crate) enum Stage {
    /// The first item comes next, or the end.
    Going,
    /// The fault of the stream of this number comes next.
    Broken(usize, StreamFault),
    /// The fault was gone past.
    Over,
}

impl Stage {
    /// Goes on where this stream has a fault next, or none. Mostly it has none, and then nothing is written.
    #[inline(always)]
    fn meet(&mut self, number: usize, fault: Option<StreamFault>)
        requires { self.old ≡ going }
        ensures { self.new ≡ stage_of number fault }
    {
        match fault {
            Some(fault) => *self = Stage::Broken(number, fault),
            None => {}
        }
    }
}

/// Several streams as one: their items by time, an item without a time first, and by the stream's number
/// where two have one time. It ends at the first fault that has no item before it, of several at the least
/// number.
#[derive(Drop)]
pub struct Merge<'a, S: Source + Drop> {
    readers: Vec<StreamReader<'a, S>>,
    /// The turns of the streams with a current item, while no fault comes next.
    turns: TournamentTree,
    stage: Stage,
}

impl<'a, S: Source + Drop> Model for Merge<'a, S> {
    ghost use Rattle.ctf_merge.specs.Merges.{Merge};
    ghost use Rattle.ctf_merge.specs.Stages.{is_over, IsStanding};

    ghost Value = { Merge };

    ghost use Rattle.ctf_class.specs.contracts.class.Kind as kinds;
    ghost use Rattle.ctf_stream.specs.Codes.{coded_val};
    ghost use Rattle.std.specs.Coded.{codes};

    ghost coded = { Prim.hlevel (codes, kinds.the_row.coded, coded_val) };

    ghost view = { λ m. record { readers = m.readers.items; over = is_over m.stage } };

    ghost invariant = { λ m. IsStanding m.readers.items m.turns m.stage };
}

/// Fetches what comes first, where nothing was fetched.
fn fetch<'a, S: Source + Drop>(reader: &mut StreamReader<'a, S>)
    ensures { Fetched reader.old reader.new }
{
    match reader.ahead() {
        Peeked::Start => reader.go_on(),
        Peeked::Item(_) => {}
        Peeked::Ended => {}
        Peeked::Fault(_) => {}
    }
}

/// Fetches what comes first of each reader.
fn fetch_each<'a, S: Source + Drop>(readers: &mut [StreamReader<'a, S>])
    ensures { EachIsFetched readers.old readers.new }
{
    for reader in readers.iter_mut() {
        fetch(reader);
    }
}

/// Gives the current item of a reader, and fetches the next one.
fn give<'a, S: Source + Drop>(
    reader: &mut StreamReader<'a, S>,
) -> Result<Option<OwnedItem<'a>>, StreamFault>
    requires { HasItem reader.old.ahead }
    ensures told { GivesFront reader.old.ahead result }
    ensures of { owned.GivesOf reader.old.trace reader.old.name result }
    ensures goes_on { IsTrue reader.old.tells → OrRefused (rest_of reader.old) (coming reader.new) }
    ensures fetched { IsFetched reader.new.ahead }
    ensures room { owned.GivesRoom reader.old.room reader.new.room result }
    ensures trace { reader.new.trace ≡ reader.old.trace }
    ensures writes { reader.new.writes ≡ reader.old.writes }
    ensures name { reader.new.name ≡ reader.old.name }
    ensures tells { IsTrue reader.old.tells → IsTrue reader.new.tells }
    ensures counted { IsTrue reader.old.tells → given_by reader.new ≡ given_by reader.old }
    ensures on_line { IsOnLine reader.new }
    ensures all_taken { IsTrue reader.old.tells → IsAllTaken reader.new.ahead reader.new.left }
{
    match reader.next() {
        Ok(item) => {
            fetch(reader);
            Ok(item)
        }
        Err(fault) => Err(fault),
    }
}

/// Lines up a stream by what comes next of it: its turn, where that is an item, in the place of the one before. Gives
/// the fault that comes next.
#[inline(always)]
fn line_up(turns: &mut TournamentTree, number: usize, ahead: Peeked) -> Option<StreamFault>
    requires number { number + 1 < 2 ^ 63 }
    requires within { number < length turns.old }
    ensures fault { result ≡ fault_at ahead }
    ensures turns { turns.new ≡ set turns.old number (turn_at number ahead) }
{
    if let Peeked::Item(time) = ahead {
        turns.put(number, Some(Turn::new(time, number)));
        return None;
    }
    turns.put(number, None);
    match ahead {
        Peeked::Fault(fault) => Some(fault),
        Peeked::Item(_time) => None,
        Peeked::Start => None,
        Peeked::Ended => None,
    }
}

/// Lines up the turns of all streams, up to the first one with a fault next.
fn line_up_each<'a, S: Source + Drop>(
    alloc: Global,
    readers: &[StreamReader<'a, S>],
) -> Result<(TournamentTree, Stage), NoMemory>
    ensures stands { IfOk result (λ r. Stands r.1 (map (λ s. s.ahead) readers.now) r.0) }
    ensures open { IfOk result (λ r. is_over r.1 ≡ false) }
{
    let mut turns = TournamentTree::new(alloc, readers.len())?;
    for (number, reader) in readers.iter().enumerate() {
        if let Some(fault) = line_up(&mut turns, number, reader.ahead()) {
            return Ok((turns, Stage::Broken(number, fault)));
        }
    }
    Ok((turns, Stage::Going))
}

impl<'a, S: Source + Drop> Merge<'a, S> {
    /// Fetches the first item of each stream, also where one has a fault. What is to come is the merged list
    /// of what was to come of the readers.
    pub fn new(alloc: Global, readers: Vec<StreamReader<'a, S>>) -> Result<Merge<'a, S>, NoMemory>
        ensures told { IfOk result (λ m. EachTells readers.entry.items →
            MergedOrRefused (merged (map coming readers.entry.items)) (coming_of m)) }
        ensures each { IfOk result (λ m. EachComes readers.entry.items m.readers) }
        ensures fetched { IfOk result (λ m. EachFetched m.readers) }
        ensures rises { IfOk result (λ m. EachTells readers.entry.items →
            EachRises readers.entry.items → ComingRises m) }
        ensures open { IfOk result (λ m. m.over ≡ false) }
        ensures names { IfOk result (λ m. names_of m.readers ≡ names_of readers.entry.items) }
        ensures traces { IfOk result (λ m. traces_of m.readers ≡ traces_of readers.entry.items) }
        ensures writes { IfOk result (λ m. writes_of m.readers ≡ writes_of readers.entry.items) }

        // The bytes taken are those that the sources gave, and no more than the current items need.
        ensures tells { IfOk result (λ m. EachTells readers.entry.items → EachTells m.readers) }
        ensures counted { IfOk result (λ m. EachTells readers.entry.items →
            given_of m.readers ≡ given_of readers.entry.items) }
        ensures on_line { IfOk result (λ m. EachOnLine readers.entry.items → EachOnLine m.readers) }
        ensures all_taken { IfOk result (λ m. EachTells readers.entry.items →
            EachAllTaken readers.entry.items → EachAllTaken m.readers) }
    {
        let mut readers = readers;
        fetch_each(&mut readers);
        let (turns, stage) = line_up_each(alloc, &readers)?;
        Ok(Merge {
            readers,
            turns,
            stage,
        })
    }

    /// What comes next: a fault without items before it, else the item of the least turn.
    fn first(&self) -> First
        ensures finds { Finds (first_now self.now) result }
        ensures fetched { EachFetched self.now.readers }
    {
        match self.stage {
            Stage::Going => match self.turns.first() {
                Some(number) => First::Item(number),
                None => First::Nothing,
            },
            Stage::Broken(number, fault) => First::Fault(number, fault),
            Stage::Over => First::Nothing,
        }
    }

    /// The number of the stream whose item comes next; `None` where a fault comes next, and at the end.
    pub fn next_stream(&self) -> Option<usize>
        ensures is { result ≡ number_in (first_now self.now) }
        ensures item { IfSome result (IsNext self.now) }
        ensures none { EachTells self.now.readers →
            IfNone result ((coming_of self.now).items ≡ []) }
    {
        match self.first() {
            First::Item(number) => Some(number),
            First::Fault(_number, _fault) => None,
            First::Nothing => None,
        }
    }

    /// The item that comes next, by reference: with its values; or an event record as its text, or as its clock alone,
    /// where its reader was asked for texts and read it so. `None` where a fault comes next, and at the end. No memory
    /// is taken.
    pub fn head(&self) -> Option<CurrentItem<'_>>
        ensures shows { ShowsHead self.now result }
        ensures made { IfSome result IsMadeTold }
        ensures none { IfNone result (NoItemComes self.now) }
    {
        let number = self.next_stream()?;
        let reader = self.reader(number)?;
        reader.told()
    }

    /// The fault that comes next.
    pub fn fault(&self) -> Option<MergeFault>
        ensures is { result ≡ fault_in (first_now self.now) }
        ensures shows { EachTells self.now.readers → (coming_of self.now).items ≡ [] →
            result ≡ (coming_of self.now).fault }
    {
        match self.first() {
            First::Fault(number, fault) => Some(MergeFault::Stream { number, fault }),
            First::Item(_number) => None,
            First::Nothing => None,
        }
    }

    /// Goes past the current item, that of the stream of this number, and fetches the next one of its stream. For a
    /// caller who knows it, so that it isn't looked for again.
    #[inline(always)]
    pub fn leave(&mut self, number: usize)
        requires { IsNext self.old number }
        ensures goes_on { EachTells self.old.readers →
            GoesOn (coming_of self.old) (coming_of self.new) }
        ensures each { LeavesOne number self.old.readers self.new.readers }
        ensures fetched { EachFetched self.new.readers }
        ensures rises { EachTells self.old.readers → ComingRises self.old → ComingRises self.new }
        ensures names { names_of self.new.readers ≡ names_of self.old.readers }
        ensures traces { traces_of self.new.readers ≡ traces_of self.old.readers }
        ensures writes { writes_of self.new.readers ≡ writes_of self.old.readers }

        // Of any sources: an item that is gone past took room.
        ensures room { RoomLeft (first_now self.old) (room_of self.old.readers)
            (room_of self.new.readers) }

        // The bytes taken are those that the sources gave, and no more than the current items need.
        ensures tells { EachTells self.old.readers → EachTells self.new.readers }
        ensures counted { EachTells self.old.readers →
            given_of self.new.readers ≡ given_of self.old.readers }
        ensures on_line { EachOnLine self.old.readers → EachOnLine self.new.readers }
        ensures all_taken { EachTells self.old.readers → EachAllTaken self.old.readers →
            EachAllTaken self.new.readers }
    {
        let reader = &mut self.readers[number];
        reader.go_on();
        let ahead = reader.ahead();
        let fault = line_up(&mut self.turns, number, ahead);
        self.stage.meet(number, fault);
    }

    /// Goes past the current item, and fetches the next one of its stream; or goes past the current fault,
    /// and then nothing comes. The end stays.
    pub fn go_on(&mut self)
        ensures goes_on { EachTells self.old.readers →
            GoesOn (coming_of self.old) (coming_of self.new) }
        ensures each { LeavesFront (first_now self.old) self.old.readers self.new.readers }
        ensures fetched { EachFetched self.new.readers }
        ensures rises { EachTells self.old.readers → ComingRises self.old → ComingRises self.new }
        ensures names { names_of self.new.readers ≡ names_of self.old.readers }
        ensures traces { traces_of self.new.readers ≡ traces_of self.old.readers }
        ensures writes { writes_of self.new.readers ≡ writes_of self.old.readers }

        // Of any sources: an item that is gone past took room.
        ensures room { RoomLeft (first_now self.old) (room_of self.old.readers)
            (room_of self.new.readers) }

        // The bytes taken are those that the sources gave, and no more than the current items need.
        ensures tells { EachTells self.old.readers → EachTells self.new.readers }
        ensures counted { EachTells self.old.readers →
            given_of self.new.readers ≡ given_of self.old.readers }
        ensures on_line { EachOnLine self.old.readers → EachOnLine self.new.readers }
        ensures all_taken { EachTells self.old.readers → EachAllTaken self.old.readers →
            EachAllTaken self.new.readers }
    {
        match self.stage {
            Stage::Going => {
                if let Some(number) = self.turns.first() {
                    self.leave(number);
                }
            }
            Stage::Broken(_number, _fault) => self.stage = Stage::Over,
            Stage::Over => {}
        }
    }

    /// The next item, by value, while the next one of its stream is fetched; `None` at the end. The fault is reported
    /// once, and then nothing comes: one that was met while an item was fetched is reported by the next call. Where an
    /// allocation fails for the item, that is reported in its place.
    ///
    /// An error is the fault of a stream after the items before, F1 to F11, F13, F14 or `NoMemory`, with its number.
    pub fn next(&mut self) -> Result<Option<OwnedItem<'a>>, MergeFault>
        ensures gives { EachTells self.old.readers →
            Gives (coming_of self.old) (coming_of self.new) result }
        ensures each { LeavesFront (first_now self.old) self.old.readers self.new.readers }
        ensures fetched { EachFetched self.new.readers }
        ensures rises { EachTells self.old.readers → ComingRises self.old → ComingRises self.new }

        // Of any sources: what was current is given, after a fault nothing comes, the end stays, and an item that is
        // given took room.
        ensures first { GivesFirst self.old result }
        ensures over { OnErr result (self.new.over ≡ true) }
        ensures stays { IfOk result (λ given. given ≡ None → self.new ≡ self.old) }
        ensures room { GivesRoom (room_of self.old.readers) (room_of self.new.readers) result }
        ensures names { names_of self.new.readers ≡ names_of self.old.readers }
        ensures traces { traces_of self.new.readers ≡ traces_of self.old.readers }
        ensures writes { writes_of self.new.readers ≡ writes_of self.old.readers }

        // The bytes taken are those that the sources gave, and no more than the current items need.
        ensures tells { EachTells self.old.readers → EachTells self.new.readers }
        ensures counted { EachTells self.old.readers →
            given_of self.new.readers ≡ given_of self.old.readers }
        ensures on_line { EachOnLine self.old.readers → EachOnLine self.new.readers }
        ensures all_taken { EachTells self.old.readers → EachAllTaken self.old.readers →
            EachAllTaken self.new.readers }
    {
        match self.stage {
            Stage::Going => match self.turns.first() {
                Some(number) => {
                    let reader = &mut self.readers[number];
                    match give(reader) {
                        Ok(item) => {
                            let ahead = reader.ahead();
                            let fault = line_up(&mut self.turns, number, ahead);
                            self.stage.meet(number, fault);
                            Ok(item)
                        }
                        Err(fault) => {
                            self.stage = Stage::Over;
                            Err(MergeFault::Stream { number, fault })
                        }
                    }
                }
                None => Ok(None),
            },
            Stage::Broken(number, fault) => {
                self.stage = Stage::Over;
                Err(MergeFault::Stream { number, fault })
            }
            Stage::Over => Ok(None),
        }
    }

    /// The reader of one stream.
    pub fn reader(&self, number: usize) -> Option<&StreamReader<'a, S>>
        ensures { MatchOption result (slice_get self.now.readers number ≡ None)
            (λ r. slice_get self.now.readers number ≡ Some r.now) }
    {
        self.readers.get(number)
    }
}
