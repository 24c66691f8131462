//! The stores of the desk.
ghost use Rattle.std.specs.Prelude.{◌≡◌, IfOk};
ghost use Rattle.system_desk.specs.Told.{store_told};

use api_types::{Change, Rows};
use keeper_core::{DeskRefusal, Keeper, KeeperRefusal, SureKeeper};
use keeper_sql::SqlKeeper;
use net_addr::Text;
use sqlite::{Connection, Error, ErrorCode, File, FileStore};
use std::alloc::Global;

/// Rows in memory, or in a file.
#[derive(Drop)]
pub enum SystemStore {
    Memory(SureKeeper),
    File(SqlKeeper<FileStore<File>>),
}

// Why SQLite opens no file.
fn refusal_of(error: Error) -> DeskRefusal {
    match error {
        Error::SqliteFailure(ErrorCode::OutOfMemory) => DeskRefusal::OutOfMemory,
        _ => DeskRefusal::Failed,
    }
}

fn open_file(rt: &HostRuntime, name: &Text) -> Result<SystemStore, DeskRefusal>
    ensures { IfOk result (λ s. (store_told s).faults ≡ 0) }
{
    match Connection::open(rt, name.as_str()) {
        Ok(conn) => Ok(SystemStore::File(SqlKeeper::make(conn))),
        Err(error) => Err(refusal_of(error)),
    }
}

fn open_memory(alloc: Global) -> Result<SystemStore, DeskRefusal>
    ensures { IfOk result (λ s. (store_told s).faults ≡ 0) }
{
    Ok(SystemStore::Memory(SureKeeper::make(Rows::empty(alloc)?)))
}

// Copies the log of a file into it. Where that fails the log stays beside it, and the next that
// opens it reads it.
fn shut_file(keeper: SqlKeeper<FileStore<File>>) {
    let _ = keeper.into_conn().close();
}

impl SystemStore {
    /// The rows in the file with this name, or rows in memory, of which there are none yet.
    pub(crate) fn open(
        rt: &HostRuntime,
        alloc: Global,
        name: Option<&Text>,
    ) -> Result<SystemStore, DeskRefusal>
        ensures { IfOk result (λ s. (store_told s).faults ≡ 0) }
    {
        match name {
            Some(name) => open_file(rt, name),
            None => open_memory(alloc),
        }
    }

    /// Ends it.
    pub(crate) fn shut(self) {
        match self {
            SystemStore::Memory(_) => {}
            SystemStore::File(keeper) => shut_file(keeper),
        }
    }

    /// How many calls failed.
    pub(crate) fn faults(&self) -> u64
        ensures { result ≡ (store_told self.now).faults }
    {
        match self {
            SystemStore::Memory(_) => 0,
            SystemStore::File(keeper) => keeper.faults(),
        }
    }
}

impl Keeper for SystemStore {
    ghost told = { store_told };

    fn load(&mut self, alloc: Global) -> Result<Rows, KeeperRefusal> {
        match self {
            SystemStore::Memory(keeper) => keeper.load(alloc),
            SystemStore::File(keeper) => keeper.load(alloc),
        }
    }

    fn apply(&mut self, alloc: Global, change: &Change) -> Result<(), KeeperRefusal> {
        match self {
            SystemStore::Memory(keeper) => keeper.apply(alloc, change),
            SystemStore::File(keeper) => keeper.apply(alloc, change),
        }
    }
}
