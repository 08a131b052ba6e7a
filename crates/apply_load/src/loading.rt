//! Loading the two files that the words name.
ghost use Rattle.std.specs.Prelude.{◌≡◌, ◌≢◌, ◌<◌, ◌≤◌, ℕ, length, Err, IfOk, IfErr, IsErrOf};
ghost use Rattle.apply_io.specs.Causes.{Rose};
ghost use Rattle.apply_io.specs.Files.{KeepsFiles};
ghost use Rattle.edm_model.specs.ModelFile.{model_limit};
ghost use Rattle.edm_data.specs.DataFile.{data_limit};
ghost use Rattle.context_typing.specs.Readings.{readings};
ghost use Rattle.apply_load.specs.Loads.{Loaded, Missing, FilesMake, MakesModel, MakesWorld, Lacks};
ghost use Rattle.apply_load.specs.LoadStops.{ModelStopSays, DataStopSays, LoadStopSays};

use crate::customs::{CustomStop, load_customs};
use crate::file::{FileFault, read_file};
use crate::refusals::{data_line, set_names};
use apply_io::Folder;
use apply_store::Store;
use edm_data::{DATA_LIMIT, Data, read_data};
use edm_model::{MODEL_LIMIT, Model, ModelRefused, read_model};
use hier_states::hier_states;
use line_stream::Output;
use std::alloc::Global;

/// The names of the model file and of the data file.
#[derive(Clone, Copy)]
pub struct FileNames<'a> {
    pub model: &'a str,
    pub entities: &'a str,
}

/// Why there is no model.
#[derive(Drop)]
pub enum ModelStop {
    /// A read of the folder failed.
    Fault,
    /// Memory ran out.
    Memory,
    /// The file is refused, with this line.
    Refused(&'static [u8]),
}

/// Why there is no data.
#[derive(Drop)]
pub enum DataStop {
    /// A read of the folder failed.
    Fault,
    /// Memory ran out.
    Memory,
    /// The file is refused, with this line.
    Refused(Vec<u8>),
}

/// Why the files make no store.
#[derive(Drop)]
pub enum LoadStop {
    /// A read of the folder failed.
    Fault,
    /// Memory ran out.
    Memory,
    /// The model file or one of its custom aggregates is refused, with this line.
    Model(Output),
    /// The data file is refused, with this line.
    Data(Vec<u8>),
}

/// Reads the model file and judges it.
fn load_model<F: Folder>(
    alloc: Global,
    folder: &mut F,
    name: &str,
    limit: usize,
    buffer: &mut [u8],
) -> Result<Model, ModelStop>
    requires limit { limit ≡ model_limit }
    requires room { 0 < length buffer.old }
    ensures keeps { KeepsFiles (F.files folder.old) (F.files folder.new) }
    ensures steady_still { F.is_steady folder.old → F.is_steady folder.new }
    ensures later { F.fault_count folder.old ≤ F.fault_count folder.new }
    ensures ok { IfOk result (MakesModel (F.files folder.old) name.now) }
    ensures stop { IfErr result (ModelStopSays (F.files folder.old) name.now) }
    ensures fault { IsErrOf result ModelStop.Fault → Rose (F.fault_count folder.old) (F.fault_count folder.new) }
    ensures steady { IsErrOf result ModelStop.Fault → F.is_steady folder.old → Lacks (F.files folder.old) name.now }
{
    let file = match read_file(alloc, folder, name, limit, buffer) {
        Ok(file) => file,
        Err(FileFault::Fault) => return Err(ModelStop::Fault),
        Err(FileFault::Memory) => return Err(ModelStop::Memory),
    };
    match read_model(alloc, file.as_slice()) {
        Ok(model) => Ok(model),
        Err(ModelRefused::TooLong) => Err(ModelStop::Refused(b"model TooLong\n")),
        Err(ModelRefused::Json) => Err(ModelStop::Refused(b"model Json\n")),
        Err(ModelRefused::Model) => Err(ModelStop::Refused(b"model Model\n")),
        Err(ModelRefused::Memory) => Err(ModelStop::Memory),
    }
}

/// Reads the data file and judges it over the model.
#[tactic(auto, using(crate::proofs::Fronts::folders))]
fn load_data<F: Folder>(
    alloc: Global,
    folder: &mut F,
    name: &str,
    limit: usize,
    model: Model,
    buffer: &mut [u8],
) -> Result<Data, DataStop>
    requires limit { limit ≡ data_limit }
    requires room { 0 < length buffer.old }
    ensures keeps { KeepsFiles (F.files folder.old) (F.files folder.new) }
    ensures steady_still { F.is_steady folder.old → F.is_steady folder.new }
    ensures later { F.fault_count folder.old ≤ F.fault_count folder.new }
    ensures ok { IfOk result (MakesWorld (F.files folder.old) name.now model) }
    ensures model { IfOk result (λ d. d.model ≡ model) }
    ensures stop { IfErr result (DataStopSays (F.files folder.old) name.now model) }
    ensures fault { IsErrOf result DataStop.Fault → Rose (F.fault_count folder.old) (F.fault_count folder.new) }
    ensures steady { IsErrOf result DataStop.Fault → F.is_steady folder.old → Lacks (F.files folder.old) name.now }
{
    let Ok(names) = set_names(alloc, &model) else {
        return Err(DataStop::Memory);
    };
    let file = match read_file(alloc, folder, name, limit, buffer) {
        Ok(file) => file,
        Err(FileFault::Fault) => return Err(DataStop::Fault),
        Err(FileFault::Memory) => return Err(DataStop::Memory),
    };
    match read_data(alloc, model, file.as_slice()) {
        Ok(data) => Ok(data),
        Err(refused) => match data_line(alloc, names.as_slice(), &refused) {
            Ok(line) => Err(DataStop::Refused(line)),
            Err(_) => Err(DataStop::Memory),
        },
    }
}

/// Reads the two files, the model file first, whose custom aggregates are judged before the data file is read. A cyclic
/// hierarchy refuses no file.
#[tactic(auto, using(crate::proofs::Fronts::folders))]
pub fn load<F: Folder>(
    alloc: Global,
    folder: &mut F,
    names: FileNames<'_>,
    buffer: &mut [u8],
) -> Result<Store, LoadStop>
    requires { 0 < length buffer.old }
    ensures keeps { KeepsFiles (F.files folder.old) (F.files folder.new) }
    ensures steady_still { F.is_steady folder.old → F.is_steady folder.new }
    ensures later { F.fault_count folder.old ≤ F.fault_count folder.new }
    ensures ok { IfOk result (λ s. FilesMake (F.files folder.old) (record { model = names.entry.model.now; entities = names.entry.entities.now }) (Loaded s.world (readings s.customs))) }
    ensures stop { IfErr result (LoadStopSays (F.files folder.old) (record { model = names.entry.model.now; entities = names.entry.entities.now })) }
    ensures fault { IsErrOf result LoadStop.Fault → Rose (F.fault_count folder.old) (F.fault_count folder.new) }
    ensures steady { IsErrOf result LoadStop.Fault → F.is_steady folder.old → FilesMake (F.files folder.old) (record { model = names.entry.model.now; entities = names.entry.entities.now }) Missing }
{
    let model = match load_model(alloc, folder, names.model, MODEL_LIMIT, buffer) {
        Ok(model) => model,
        Err(ModelStop::Fault) => return Err(LoadStop::Fault),
        Err(ModelStop::Memory) => return Err(LoadStop::Memory),
        Err(ModelStop::Refused(line)) => return Err(LoadStop::Model(Output::Constant(line))),
    };
    let customs = match load_customs(alloc, &model) {
        Ok(customs) => customs,
        Err(CustomStop::Memory) => return Err(LoadStop::Memory),
        Err(CustomStop::Refused(line)) => return Err(LoadStop::Model(Output::Made(line))),
    };
    let data = match load_data(alloc, folder, names.entities, DATA_LIMIT, model, buffer) {
        Ok(data) => data,
        Err(DataStop::Fault) => return Err(LoadStop::Fault),
        Err(DataStop::Memory) => return Err(LoadStop::Memory),
        Err(DataStop::Refused(line)) => return Err(LoadStop::Data(line)),
    };
    match hier_states(alloc, &data) {
        Ok(hiers) => Ok(Store::new(data, customs, hiers)),
        Err(_) => Err(LoadStop::Memory),
    }
}
