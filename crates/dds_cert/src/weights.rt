//! The lists of weights of a row.
ghost use Rattle.std.specs.Prelude.{◌≡◌, ◌++◌, [], List, map, true, false, IfOk};
ghost use Rattle.toml.specs.View.{table_view};
ghost use Rattle.dds_fields.specs.Reading.{optional};
ghost use Rattle.dds_fields.specs.Gives.{Gives};
ghost use Rattle.dds_fields.specs.Places.{place_text};
ghost use Rattle.dds_weights.specs.Fits.{keys_differ};
ghost use Rattle.dds_weights.specs.declared.certificate.Weight.{Weight as WeightView};
ghost use Rattle.dds_cert.specs.Adding.{any_stands};
ghost use Rattle.dds_cert.specs.Weights.{weight_place, weights_of, weight_number, weight, weights};

use crate::adding::{NamedOnce, Placed};
use crate::keys::EndpointFields;
use dds_base::grid::PLACES;
use dds_base::{Endpoint, KeyNo, NoMemory};
use dds_fields::fault::ReadFault;
use dds_fields::field::{entry, number_field};
use dds_fields::items::{Items, optional_list};
use dds_fields::place::Place;
use dds_weights::Weight;
use std::alloc::Global;
use toml::{Table, Value};

impl<E: Endpoint> Placed for Weight<E> {
    ghost place = { weight_place E.number_of };

    fn place(self) -> (usize, usize) {
        (self.endpoint.place(), self.key.number())
    }
}

// 0 to 4,294,967,295.
#[tactic(auto, unfolding(crate::specs::Weights::weight_number))]
fn weight_number(alloc: Global, path: &Place, table: &Table) -> Result<u32, ReadFault>
    ensures { Gives (λ n. n) result (weight_number (place_text path.now) (table_view table.now)) }
{
    number_field(alloc, 0, 4_294_967_295, path, table, "weight")
}

// The same weight for each of the keys, none of which is named yet.
#[tactic(auto, using(dds_base::proofs::Lists::map_next))]
fn push_weights<E: Endpoint>(
    all: &mut NamedOnce<Weight<E>>,
    endpoint: E,
    keys: &[KeyNo],
    weight: u32,
) -> Result<(), NoMemory>
    requires new { any_stands (map (weight_place E.number_of) all.old.items.items) (E.number_of endpoint) keys.now
        ≡ false }
    requires distinct { keys_differ keys.now ≡ true }
    ensures { IfOk result (λ _. all.new.items.items ≡ all.old.items.items ++ weights_of (endpoint, keys.now) weight) }
{
    for key in keys {
        all.push(Weight {
            endpoint,
            key: *key,
            weight,
        })?;
    }
    Ok(())
}

// What reads the weights of a list, at endpoints of one kind.
#[derive(Clone, Copy)]
struct WeightEntries<'a, F> {
    fields: &'a F,
    list: &'a Place<'a>,
}

impl<F: EndpointFields> Items for WeightEntries<'_, F> {
    type Read = NamedOnce<Weight<F::Number>>;

    ghost State = { List (WeightView F.Number) };

    ghost state = { λ all. all.items.items };

    ghost step = { λ it. weight F.Number.number_of F.word (F.endpoint_and_keys it.fields.now)
        (place_text it.list.now) };

    #[tactic(auto, unfolding(crate::specs::Weights::weight, crate::specs::Adding::and_more))]
    fn add(
        &self,
        alloc: Global,
        all: &mut NamedOnce<Weight<F::Number>>,
        path: &Place,
        value: &Value,
    ) -> Result<(), ReadFault> {
        let table = entry(alloc, &[F::word(), "key", "weight"], path, value)?;
        let (endpoint, keys) = self.fields.endpoint_and_keys(alloc, path, table)?;
        let weight = weight_number(alloc, path, table)?;
        all.may_add(alloc, self.list, path, endpoint.place(), &keys)?;
        push_weights(all, endpoint, &keys, weight)?;
        Ok(())
    }
}

/// The weights of a row at endpoints of one kind, none where the key is absent.
#[tactic(auto, unfolding(dds_fields::specs::Reading::optional))]
pub(crate) fn weights<F: EndpointFields>(
    alloc: Global,
    fields: &F,
    path: &Place,
    table: &Table,
    key: &str,
) -> Result<Vec<Weight<F::Number>>, ReadFault>
    ensures { Gives (λ v. v.items) result
        (optional key.now [] (weights F.Number.number_of F.word (F.endpoint_and_keys fields.now)) (place_text path.now)
        (table_view table.now)) }
{
    let list = Place::Key { parent: path, key };
    let entries = WeightEntries {
        fields,
        list: &list,
    };
    let none = NamedOnce::new(alloc);
    let all = optional_list(alloc, PLACES, &entries, none, path, table, key)?;
    Ok(all.items)
}
