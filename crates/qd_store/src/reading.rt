//! Parts of live versions that are read.
ghost use Rattle.qd_base.specs.declared.op.Entry.{Entry};
ghost use Rattle.qd_base.specs.declared.part.Part.{Part};
ghost use Rattle.qd_block.specs.Blocks.{IsWhole};
ghost use Rattle.qd_durable.specs.Faults.{CountsVol};
ghost use Rattle.qd_column_files.specs.Reading.{IsBlockRead};
ghost use Rattle.qd_manifest.specs.declared.shape.TableParts.{TableParts};
ghost use Rattle.qd_scan.specs.Sources.{IsBlockOf};
ghost use Rattle.qd_store.specs.Reading.{IsShownPart};
ghost use Rattle.qd_store.specs.Stores.{IsStore};
ghost use Rattle.qd_txnfile.specs.Versions.{Version};
ghost use Rattle.qd_versions.specs.Reading.{IsPartAt};
ghost use Rattle.qd_volume.specs.Disk.{reads_of};
ghost use Rattle.std.specs.Prelude.{◌≡◌, List, IfOk, IfSome};

use crate::book::Book;
use qd_block::Block;
use qd_column_files::laws::one_block_is_held;
use qd_durable::LogFault;
use qd_symbols::SymbolMap;
use qd_volume::Volume;
use std::alloc::Global;

impl Book {
    /// Reads the rows that a part of a live version shows.
    pub(crate) fn read_part<V: Volume>(
        &self,
        alloc: Global,
        volume: &mut V,
        row: u8,
        table: usize,
        i: usize,
    ) -> Result<Block<SymbolMap>, LogFault>
        requires there { (t : TableParts) × (p : Part) × IsPartAt self.now.versions.versions row table i t p }
        ensures block { (t : TableParts) (p : Part) → IsPartAt self.now.versions.versions row table i t p → IfOk result (λ b. IsBlockOf t.schema p b) }
        ensures whole { IfOk result (λ b. IsWhole b) }
        ensures told { (t : TableParts) (p : Part) → IsPartAt self.now.versions.versions row table i t p → IfSome (V.storage volume.old).disk (λ disk. IsBlockRead result t.schema p (reads_of disk)) }
        ensures shown { IfSome (V.storage volume.old).disk (λ disk. (h : List Entry) (next : Version) → IsStore self.now h next disk → IsShownPart result self.now h row table i) }
        ensures stays { (V.storage volume.new).disk ≡ (V.storage volume.old).disk }
        ensures counted { CountsVol (V.storage volume.old).faults (V.storage volume.new).faults result }
    {
        one_block_is_held();
        self.versions.read_part(alloc, volume, row, table, i)
    }
}
