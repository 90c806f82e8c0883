// The fields of an individual, read by its number; the refutation form, and question 21.
ghost use Rattle.std.specs.Prelude.{◌≡◌, ℕ, ◌^◌, ◌≤◌, ◌<◌};
ghost use Rattle.table.specs.Bounds.{Bounded};
ghost use Rattle.table.specs.Layout.{number_size, name_count};
ghost use Rattle.table.specs.NameValues.{set_of};
ghost use Rattle.table.specs.Range.{each};
ghost use Rattle.countermodel.specs.Layout.{individual_count};
ghost use Rattle.countermodel.specs.Individual.{individual_head, individual_names, individual_ok, individual_parent, individual_role, refutation_form};
ghost use Rattle.refutation_reader.specs.Individuals.{HasIndividual, Individuals};

use crate::layout::{
    INDIVIDUAL_LENGTH, INDIVIDUAL_SIZE, INDIVIDUAL_TAG, NAMES_AT, PARENT_AT, ROLE_AT,
    individual_place, individuals_within,
};
use table::layout::{LENGTH_AT, Limits, ROLES};
use table::names::Names;
use table::number::load16;
use table_rows::row::ends_at;

#[tactic(auto, unfolding(countermodel::specs::Layout::individual_count))]
pub fn count(e: &[u8]) -> usize
    ensures { result ≡ individual_count e.now }
{
    e.len() / INDIVIDUAL_SIZE
}

#[tactic(auto, unfolding(countermodel::specs::Individual::individual_head))]
fn head_ok(e: &[u8], k: usize) -> bool
    requires { HasIndividual e.now k }
    ensures { result ≡ individual_head e.now k }
{
    let tag = e[individual_place(k, 0)];
    match tag {
        INDIVIDUAL_TAG => load16(e, individual_place(k, LENGTH_AT)) as usize == INDIVIDUAL_LENGTH,
        0..=0x41 | 0x43..=0xFF => false,
    }
}

pub fn parent(e: &[u8], k: usize) -> usize
    requires { HasIndividual e.now k }
    ensures { (result ≡ individual_parent e.now k) × (result < 256 ^ number_size) }
{
    load16(e, individual_place(k, PARENT_AT)) as usize
}

pub fn role(e: &[u8], k: usize) -> u8
    requires { HasIndividual e.now k }
    ensures { result ≡ individual_role e.now k }
{
    e[individual_place(k, ROLE_AT)]
}

pub fn names(e: &[u8], k: usize) -> Names
    requires { HasIndividual e.now k }
    ensures { (set_of result ≡ individual_names e.now k) × (set_of result < 2 ^ name_count) }
{
    Names::load(e, individual_place(k, NAMES_AT))
}

// 16, of a refutation.
#[tactic(auto, unfolding(countermodel::specs::Individual::refutation_form))]
pub fn has_refutation_form(e: &[u8], limits: Limits) -> bool
    requires { Bounded limits }
    ensures { result ≡ refutation_form limits e.now }
{
    let n = count(e);
    if n == 0 {
        return false;
    }
    if individuals_within(limits) < n {
        return false;
    }
    if !ends_at(e, individual_place(n, 0)) {
        return false;
    }
    heads_ok(e, n)
}

fn heads_ok(e: &[u8], n: usize) -> bool
    requires { Individuals e.now n }
    ensures { result ≡ each (individual_head e.now) n 0 }
{
    (0..n).all(|k| head_ok(e, k))
}

// 21, of one individual.
#[tactic(auto, unfolding(countermodel::specs::Individual::individual_ok))]
fn individual_ok(e: &[u8], k: usize) -> bool
    requires { HasIndividual e.now k }
    ensures { result ≡ individual_ok e.now k }
{
    let above = parent(e, k);
    let role = role(e, k);
    if k == 0 {
        above == 0 && role == 0
    } else {
        above < k && role < ROLES
    }
}

// 21.
pub fn individuals_ok(e: &[u8], n: usize) -> bool
    requires { Individuals e.now n }
    ensures { result ≡ each (individual_ok e.now) n 0 }
{
    (0..n).all(|k| individual_ok(e, k))
}
