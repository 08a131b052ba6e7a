//! What requests are answered over.
ghost use Rattle.std.specs.Prelude.{◌≡◌, IsTrue};
ghost use Rattle.context_typing.specs.Readings.{AreTypedOver, readings};
ghost use Rattle.context_typing.specs.Typing.{customs_typed};
ghost use Rattle.hier_states.specs.States.{AreStates};

use context_typing::Customs;
use edm_data::Data;
use hier_states::HierState;
use std::marker::Model;

/// Loaded data, with the custom aggregates of its model and the states of its hierarchies.
#[derive(Drop)]
pub struct Store {
    loaded: Data,
    customs: Customs,
    hiers: Vec<HierState>,
}

impl Model for Store {
    ghost use Rattle.std.specs.Coded.{codes};
    ghost use Rattle.std.specs.Prelude.{IsTrue};
    ghost use Rattle.apply_ast.specs.contracts.expressions.Expr as of_expr;
    ghost use Rattle.context_typing.specs.Readings.{AreTypedOver, readings};
    ghost use Rattle.context_typing.specs.Typing.{customs_typed};
    ghost use Rattle.hier_states.specs.States.{AreStates};
    ghost use Rattle.apply_store.specs.Stores as seen;

    ghost Value = { seen.Store };

    ghost coded = { Prim.hlevel (codes, of_expr.the_row.coded) };

    ghost view = { λ s. record { world = s.loaded; customs = s.customs; hiers = s.hiers.items } };

    ghost invariant = { λ s. AreTypedOver s.loaded.model s.customs × IsTrue (customs_typed s.loaded.model (readings s.customs))
        × AreStates s.loaded s.hiers.items };
}

impl Store {
    /// The data with the custom aggregates of its model and the states of its hierarchies.
    pub fn new(loaded: Data, customs: Customs, hiers: Vec<HierState>) -> Store
        requires typed { AreTypedOver loaded.model customs }
        requires whole { IsTrue (customs_typed loaded.model (readings customs)) }
        requires states { AreStates loaded hiers.items }
        ensures value { result ≡ record { world = loaded; customs = customs; hiers = hiers.items } }
    {
        Store {
            loaded,
            customs,
            hiers,
        }
    }

    /// The data.
    pub fn data(&self) -> &Data
        ensures value { result.now ≡ self.now.world }
    {
        &self.loaded
    }

    /// The model.
    pub fn model(&self) -> &edm_model::Model
        ensures value { result.now ≡ self.now.world.model }
    {
        self.loaded.model()
    }

    /// The custom aggregates of the model.
    pub fn customs(&self) -> &Customs
        ensures value { result.now ≡ self.now.customs }
        ensures typed { AreTypedOver self.now.world.model result.now }
        ensures whole { IsTrue (customs_typed self.now.world.model (readings result.now)) }
    {
        &self.customs
    }

    /// The states of the model's hierarchies, in the order of `Model::hiers`.
    pub fn hiers(&self) -> &[HierState]
        ensures value { result.now ≡ self.now.hiers }
        ensures states { AreStates self.now.world result.now }
    {
        self.hiers.as_slice()
    }
}
