//! What is kept of the declarations before: of what no second may be there.

ghost use Rattle.std.specs.Prelude.{◌≡◌, ◌++◌, [], ◌∷◌, Some, List, OnOk, map, nat_eq, filter_map};
ghost use Rattle.std.specs.List.{list_any};
ghost use Rattle.tsdl_tree.specs.declared.tree.BlockKind.TheVariants as block;
ghost use Rattle.tsdl_tree.specs.declared.tree.TableKind.TheVariants as table;
ghost use Rattle.tsdl_tree.specs.declared.tree.Setting.{Setting};
ghost use Rattle.ctf_class.specs.declared.trace.Clock.{Clock};
ghost use Rattle.ctf_meaning.specs.declared.fault.ResolveFault.TheVariants as faults;
ghost use Rattle.ctf_meaning.specs.Name.{same_word};
ghost use Rattle.ctf_meaning.specs.Reading.{entry_of};
ghost use Rattle.ctf_meaning.specs.Written as written;
ghost use Rattle.ctf_meaning.specs.Written.{Declaration, Block, Table};
ghost use Rattle.ctf_meaning.specs.Settings.{when, minus_faults};
ghost use Rattle.ctf_meaning.specs.Blocks as meant;
ghost use Rattle.ctf_meaning.specs.Blocks.{is_trace, stream_id_of, clocks_of, block_faults, twice_faults};
ghost use Rattle.ctf_meaning.specs.Clocks.{clock_by};
ghost use Rattle.ctf_attributes.specs.Tells.{Tells, TellsFirst, Nothing};
ghost use Rattle.ctf_declarations.specs.DeclaredSoFar.{Remembers};

use ctf_attributes::{EventSettings, TraceSettings, clock, numbers, stream_id};
use ctf_meaning::ResolveFault;
use std::alloc::Global;
use std::collections::BTreeSet;
use tsdl_tree::{BlockEntry, BlockKind, Setting, TableKind};

/// Whether there was a trace, and the ids of streams and the names of clocks.
#[derive(Drop)]
pub struct DeclaredOnce {
    has_trace: bool,
    streams: BTreeSet<u64>,
    clocks: BTreeSet<Vec<u8>>,
}

impl DeclaredOnce {
    /// What is kept before the first declaration.
    pub fn new(alloc: Global) -> DeclaredOnce
        ensures { Remembers result [] }
    {
        DeclaredOnce {
            has_trace: false,
            streams: BTreeSet::new(alloc),
            clocks: BTreeSet::new(alloc),
        }
    }

    /// Keeps that there is a trace. It fails with `Twice` where there was one.
    fn add_trace(&mut self) -> Result<(), ResolveFault>
        ensures told { (before : List Declaration) → Remembers self.old before →
            TellsFirst (when (list_any is_trace before) faults.Twice) Nothing result }
        ensures kept { (before : List Declaration) (entries : List written.BlockEntry) →
            Remembers self.old before →
            OnOk result (Remembers self.new (before ++ Block block.Trace entries ∷ [])) }
    {
        if self.has_trace {
            return Err(ResolveFault::Twice);
        }
        self.has_trace = true;
        Ok(())
    }

    /// Keeps the id of a stream. It fails with `Twice` where there was one of it.
    fn add_stream(&mut self, id: u64) -> Result<(), ResolveFault>
        ensures told { (before : List Declaration) → Remembers self.old before →
            Tells (when (list_any (nat_eq id) (filter_map stream_id_of before)) faults.Twice)
            Nothing result }
        ensures kept { (before : List Declaration) (entries : List written.BlockEntry) →
            meant.id_of entries ≡ Some id → Remembers self.old before →
            OnOk result (Remembers self.new (before ++ Block block.Stream entries ∷ [])) }
    {
        if !self.streams.insert(id)? {
            return Err(ResolveFault::Twice);
        }
        Ok(())
    }

    /// Keeps the name of a clock. It fails with `Twice` where there was one of it.
    fn add_clock(&mut self, name: Vec<u8>) -> Result<(), ResolveFault>
        ensures told { (before : List Declaration) → Remembers self.old before →
            Tells (when (list_any (λ c. same_word c.name name.items) (clocks_of before))
            faults.Twice) Nothing result }
        ensures kept { (before : List Declaration) (settings : List Setting) (c : Clock) →
            clock_by settings ≡ Some c → c.name ≡ name.items → Remembers self.old before →
            OnOk result (Remembers self.new (before ++ Table table.Clock settings ∷ [])) }
    {
        if !self.clocks.insert(name)? {
            return Err(ResolveFault::Twice);
        }
        Ok(())
    }

    /// Keeps a block. It fails where its settings are wrong, and with `Twice` where there was such a trace or
    /// stream.
    pub fn add_block(
        &mut self,
        alloc: Global,
        kind: BlockKind,
        entries: &[BlockEntry],
    ) -> Result<(), ResolveFault>
        ensures told { (before : List Declaration) → Remembers self.old before →
            Tells (block_faults (Block kind (map entry_of entries.now)) ++ twice_faults before
            (Block kind (map entry_of entries.now))) Nothing result }
        ensures kept { (before : List Declaration) → Remembers self.old before →
            OnOk result (Remembers self.new
            (before ++ Block kind (map entry_of entries.now) ∷ [])) }
    {
        match kind {
            BlockKind::Trace => {
                TraceSettings::read(alloc, entries)?;
                self.add_trace()
            }
            BlockKind::Stream => {
                let id = stream_id(entries)?;
                self.add_stream(id)
            }
            BlockKind::Event => {
                EventSettings::read(alloc, entries)?;
                Ok(())
            }
        }
    }

    /// Keeps a clock, an environment or a call site. It fails where the settings are wrong, and with `Twice`
    /// where there was such a clock.
    pub fn add_table(
        &mut self,
        alloc: Global,
        kind: TableKind,
        settings: &[Setting],
    ) -> Result<(), ResolveFault>
        ensures told { (before : List Declaration) → Remembers self.old before →
            Tells (minus_faults settings.now ++ block_faults
            (Table kind settings.now) ++ twice_faults before (Table kind settings.now)) Nothing
            result }
        ensures kept { (before : List Declaration) → Remembers self.old before →
            OnOk result (Remembers self.new (before ++ Table kind settings.now ∷ [])) }
    {
        numbers(settings)?;
        match kind {
            TableKind::Clock => {
                let clock = clock(alloc, settings)?;
                let name = Vec::from_slice(alloc, clock.name.get().as_slice())?;
                self.add_clock(name)
            }
            TableKind::Env => Ok(()),
            TableKind::Callsite => Ok(()),
        }
    }
}
