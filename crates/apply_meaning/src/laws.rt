//! The laws of the meaning of pipelines, over every world of a sound model whose lists have the form that the model says, as
//! every loaded one. Shapes, sure expressions and quiet pipelines are those of typing.
ghost use Rattle.apply_meaning.specs.MeaningLaws.{IsLoaded, ValuesFit, SureIsNotBeyond, RowsFit, NodesFit, RelatedFit, MeanFits, QuietIsNotRefused};

use edm_data::Data;

/// Every data is a world of a sound model whose lists have the form that the model says.
pub fn data_is_loaded(store: &Data)
    ensures value { IsLoaded store.now }
{
    let _sets = store.model().sets();
}

/// A typed expression has a value of its type on each instance that fits the shape.
pub fn values_fit()
    ensures value { ValuesFit IsLoaded }
{}

/// A sure expression is never `Beyond`: on no instance that fits the shape is a number past its range.
pub fn sure_values_are_in_range()
    ensures value { SureIsNotBeyond IsLoaded }
{}

/// The instances of an entity set fit the set's own shape.
pub fn set_rows_fit()
    ensures value { RowsFit IsLoaded }
{}

/// The instances of the nodes of a hierarchy fit the shape of the hierarchy's type.
pub fn node_rows_fit()
    ensures value { NodesFit IsLoaded }
{}

/// The instances of the entities that an instance's entity is related to fit the shape of the navigation's target.
pub fn related_rows_fit()
    ensures value { RelatedFit IsLoaded }
{}

/// What a typed pipeline makes of instances that fit a lawful shape fits the shape that the pipeline leads to.
pub fn meanings_fit()
    ensures value { MeanFits IsLoaded }
{}

/// A quiet pipeline is never refused on instances that fit a lawful shape.
pub fn quiet_is_not_refused()
    ensures value { QuietIsNotRefused IsLoaded }
{}
