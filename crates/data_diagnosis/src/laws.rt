//! The laws that tie the faults of an item to the tests by which `edm_data` refuses a data file, over every file and every
//! sound model. A file is refused at the first item that fails one: first as no entity, then for its key, then for a
//! reference.
ghost use Rattle.data_diagnosis.specs.FileLaws.{ShapeFaultsAreOfNoEntity, KeysAreOfEntities, EarlierKeysAreOfEntities, NavigationsDangle, MissingReferencesDangle};

/// An item has a fault of shape exactly where the file's reading has no entity at its place.
pub fn shape_faults_are_of_no_entity()
    ensures shape { ShapeFaultsAreOfNoEntity }
{}

/// The key of an item is that of the entity at its place.
pub fn keys_are_of_entities()
    ensures key { KeysAreOfEntities }
{}

/// An item has an earlier one of its key exactly where the key of the entity at its place stands earlier.
pub fn earlier_keys_are_of_entities()
    ensures earlier { EarlierKeysAreOfEntities }
{}

/// An item refers to a key that is not there exactly where the entity at its place does: by a navigation property of its
/// type, and by any.
pub fn missing_references_dangle()
    ensures navigation { NavigationsDangle }
    ensures any { MissingReferencesDangle }
{}
