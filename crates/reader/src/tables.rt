// Reading settings.
ghost use Rattle.std.specs.Prelude.{◌≡◌, ◌^◌, ◌<◌, ◌≤◌, length, IfOk};
ghost use Rattle.reader.specs.Faults.{Decided};
ghost use Rattle.reader.specs.SettingsFaults.{SettingsFault};
ghost use Rattle.reader.specs.Tables.{named, entries, sessions, slice_line_at, entries_line_at, sessions_line_at, block_at, settings_of};

use crate::items::{Item, NO_SLICE, all_items};
use crate::lines::Lines;
use crate::settings::{Block, Capacities, Settings};
use crate::words::Counted;
use few::few::Few;
use identity::snssai::Snssai;
use refusal::{Reason, Refusal};

// The blocks that were read, and how much the stores hold.
#[derive(Clone, Copy)]
struct Table<'a> {
    blocks: &'a Few<Block, 16>,
    capacities: Capacities,
}

impl Table<'_> {
    // Whether a block names the slice.
    fn names(&self, slice: Snssai) -> bool
        ensures { result ≡ named slice self.now.blocks.now }
    {
        self.blocks.as_slice().iter().any(|b| b.slice == slice)
    }

    // The UE entries and the sessions that the blocks reserve.
    fn reserved(&self) -> (u64, u64)
        ensures sums { result ≡ (entries self.now.blocks.now, sessions self.now.blocks.now) }
        ensures small { (result.0 < 2 ^ 40) × (result.1 < 2 ^ 40) }
    {
        let blocks = self.blocks.as_slice();
        let entries = blocks.iter().map(|b| u64::from(b.ue_entries)).sum();
        let sessions = blocks.iter().map(|b| u64::from(b.pdu_max)).sum();
        (entries, sessions)
    }

    #[tactic(auto, unfolding(crate::specs::Tables::slice_line_at, crate::specs::Readings::checked))]
    fn slice_line(&self, lines: &mut Lines) -> Result<Snssai, Refusal>
        ensures { (result, lines.new) ≡ slice_line_at self.now.capacities self.now.blocks.now lines.old }
    {
        let line = lines.line();
        let slice = lines.field(b"slice=")?;
        let count = self.blocks.as_slice().len();
        if count >= 16 {
            return Err(Reason::TooMany.at(line));
        }
        if self.names(slice) {
            return Err(Reason::SliceTwice.at(line));
        }
        if self.capacities.subscriptions < 4 * (count + 1) {
            return Err(Reason::StoreTooSmall.at(line));
        }
        Ok(slice)
    }

    #[tactic(auto, unfolding(crate::specs::Tables::entries_line_at, crate::specs::Readings::checked, crate::specs::Readings::field_at))]
    fn entries_line(&self, lines: &mut Lines, ue_max: u32) -> Result<u32, Refusal>
        ensures { (result, lines.new) ≡ entries_line_at self.now.capacities.ues (entries self.now.blocks.now) ue_max lines.old }
    {
        let line = lines.line();
        let entries = lines.number(b"ue-entries=", 40_000)?;
        if entries < ue_max {
            return Err(Reason::EntriesBelowMax.at(line));
        }
        let (reserved, _) = self.reserved();
        if reserved + u64::from(entries) > self.capacities.ues as u64 {
            return Err(Reason::StoreTooSmall.at(line));
        }
        Ok(entries)
    }

    #[tactic(auto, unfolding(crate::specs::Tables::sessions_line_at, crate::specs::Readings::checked))]
    fn sessions_line(&self, lines: &mut Lines) -> Result<u32, Refusal>
        ensures { (result, lines.new) ≡ sessions_line_at self.now.capacities.sessions (sessions self.now.blocks.now) lines.old }
    {
        let line = lines.line();
        let sessions = lines.number(b"pdu-max=", 40_000)?;
        let (_, reserved) = self.reserved();
        if reserved + u64::from(sessions) > self.capacities.sessions as u64 {
            return Err(Reason::StoreTooSmall.at(line));
        }
        Ok(sessions)
    }
}

// At most sixteen blocks, which the stores of a depot can hold.
impl Item<Capacities, 16> for Block {
    const FILLER: Block = Block {
        slice: NO_SLICE,
        ue_max: 0,
        ue_entries: 0,
        pdu_max: 0,
        counted: Counted::Both,
    };

    ghost item_at = { block_at };

    #[tactic(auto, unfolding(crate::specs::Tables::block_at))]
    fn read(
        lines: &mut Lines,
        before: &Few<Block, 16>,
        capacities: Capacities,
    ) -> Result<Block, Refusal> {
        let table = Table {
            blocks: before,
            capacities,
        };
        let slice = table.slice_line(lines)?;
        let ue_max = lines.number(b"ue-max=", 20_000)?;
        let ue_entries = table.entries_line(lines, ue_max)?;
        let pdu_max = table.sessions_line(lines)?;
        let counted = lines.field(b"count=")?;
        Ok(Block {
            slice,
            ue_max,
            ue_entries,
            pdu_max,
            counted,
        })
    }
}

// What a text of settings says for stores of these capacities, or why and at which line it is refused: it is
// accepted exactly when no refusal fits.
#[tactic(auto, using(crate::proofs::SettingsLaw::decided), unfolding(crate::specs::Tables::settings_of, crate::specs::Tables::blocks_at))]
pub fn read_settings(text: &[u8], capacities: Capacities) -> Result<Settings, Refusal>
    ensures reads { result ≡ settings_of capacities text.now }
    ensures decided { Decided (SettingsFault capacities text.now) result }
    ensures few { IfOk result (λ s. length s.blocks ≤ 16) }
{
    let mut lines = Lines::new(text);
    let blocks = all_items(&mut lines, capacities)?;
    Ok(Settings { blocks })
}
