// The records of a replay, as it goes on.
ghost use Rattle.std.specs.Prelude.{◌≡◌, ◌++◌, [], ◌∷◌, IfOk, OnOk, OnErr};
ghost use Rattle.explain_records.specs.Stored.{SameBySymbol, nothing_kept};

use crate::ordered::OrderedKept;
use crate::records::SymbolRecords;
use explain_model::{BeginningRecord, CommandRecord, DataRecord, HeaderRecord, RepeatedRecord};
use fh_base::NoMemory;
use std::alloc::Global;
use std::marker::Model;

/// The records of a replay, in the order in which they are made. Contracts see them as the lists of them.
#[derive(Drop)]
pub struct KeptRecords {
    given: SymbolRecords<DataRecord>,
    commanded: SymbolRecords<CommandRecord>,
    headers: SymbolRecords<HeaderRecord>,
    repeated: SymbolRecords<RepeatedRecord>,
    begun: SymbolRecords<BeginningRecord>,
}

impl Model for KeptRecords {
    ghost use Rattle.explain_model.specs.SilentReasons.{Kept};

    ghost Value = { Kept };

    ghost view = { λ k. record { given = k.given; commanded = k.commanded; headers = k.headers; repeated = k.repeated; begun = k.begun } };
}

impl KeptRecords {
    /// No records. This takes no memory; later growth takes it from `alloc`.
    pub fn new(alloc: Global) -> Self
        ensures { result ≡ nothing_kept }
    {
        KeptRecords {
            given: SymbolRecords::new(alloc),
            commanded: SymbolRecords::new(alloc),
            headers: SymbolRecords::new(alloc),
            repeated: SymbolRecords::new(alloc),
            begun: SymbolRecords::new(alloc),
        }
    }

    /// Keeps a section of data. After `NoMemory` nothing changed.
    pub fn data(&mut self, r: DataRecord) -> Result<(), NoMemory>
        ensures ok { OnOk result (self.new ≡ record self.old { given = self.old.given ++ r ∷ [] }) }
        ensures err { OnErr result (self.new ≡ self.old) }
    {
        self.given.push(r)?;
        Ok(())
    }

    /// Keeps a section of a command. After `NoMemory` nothing changed.
    pub fn command(&mut self, r: CommandRecord) -> Result<(), NoMemory>
        ensures ok { OnOk result (self.new ≡ record self.old { commanded = self.old.commanded ++ r ∷ [] }) }
        ensures err { OnErr result (self.new ≡ self.old) }
    {
        self.commanded.push(r)?;
        Ok(())
    }

    /// Keeps a whole message that was not decoded. After `NoMemory` nothing changed.
    pub fn header(&mut self, r: HeaderRecord) -> Result<(), NoMemory>
        ensures ok { OnOk result (self.new ≡ record self.old { headers = self.old.headers ++ r ∷ [] }) }
        ensures err { OnErr result (self.new ≡ self.old) }
    {
        self.headers.push(r)?;
        Ok(())
    }

    /// Keeps a message that was received under a used sequence id. After `NoMemory` nothing changed.
    pub fn repeated(&mut self, r: RepeatedRecord) -> Result<(), NoMemory>
        ensures ok { OnOk result (self.new ≡ record self.old { repeated = self.old.repeated ++ r ∷ [] }) }
        ensures err { OnErr result (self.new ≡ self.old) }
    {
        self.repeated.push(r)?;
        Ok(())
    }

    /// Keeps a message that never became whole. After `NoMemory` nothing changed.
    pub fn begun(&mut self, r: BeginningRecord) -> Result<(), NoMemory>
        ensures ok { OnOk result (self.new ≡ record self.old { begun = self.old.begun ++ r ∷ [] }) }
        ensures err { OnErr result (self.new ≡ self.old) }
    {
        self.begun.push(r)?;
        Ok(())
    }

    /// Sorts the records by their symbols. `NoMemory` is answered for want of memory alone.
    pub fn order(self) -> Result<OrderedKept, NoMemory>
        ensures { IfOk result (λ ordered. SameBySymbol self ordered) }
    {
        Ok(OrderedKept {
            given: self.given.order()?,
            commanded: self.commanded.order()?,
            headers: self.headers.order()?,
            repeated: self.repeated.order()?,
            begun: self.begun.order()?,
        })
    }
}
