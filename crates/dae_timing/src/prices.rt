// How instructions are charged.
ghost use Rattle.std.specs.Prelude.{◌≡◌, ◌≤◌, map, slice_get, List, ℕ, IfOk};
ghost use Rattle.dae_timing.specs.Costs.{cost_of, price_at_word, price_if, price_of, price_of_word};

use dae_cli_options::Costs;
use dae_encode::{Inst, decode};
use std::alloc::{AllocError, Global};

/// How an instruction is charged: by one tick, as a product, or as a quotient or remainder.
#[derive(Clone, Copy)]
pub enum Price {
    One,
    Product,
    Quotient,
}

/// What an instruction of this price costs, in ticks.
pub fn cost_of(costs: Costs, price: Price) -> u16
    ensures { result ≡ cost_of costs price }
{
    match price {
        Price::One => 1,
        Price::Product => costs.mul,
        Price::Quotient => costs.div,
    }
}

/// The price of each word of a code.
pub fn prices_of(alloc: Global, code: &[u32]) -> Result<Vec<Price>, AllocError>
    ensures { IfOk result (λ prices. prices.items ≡ map price_of_word code.now) }
{
    let mut prices = Vec::with_capacity(alloc, code.len())?;
    for word in code {
        prices.push(price_of_word(*word))?;
    }
    Ok(prices)
}

/// The price at a place of a code, or that of one tick past its end.
pub fn price_at(prices: &[Price], word: usize) -> Price
    ensures { (code : List ℕ) → prices.now ≡ map price_of_word code
        → result ≡ price_at_word (slice_get code word) }
{
    match prices.get(word) {
        Some(price) => *price,
        None => Price::One,
    }
}

fn price_of_word(word: u32) -> Price
    ensures { result ≡ price_of_word word }
{
    match decode(word) {
        Some(inst) => price_of(inst),
        None => Price::One,
    }
}

fn price_of(inst: Inst) -> Price
    ensures { result ≡ price_of inst }
{
    match inst {
        Inst::Mul(..) | Inst::Mulh(..) | Inst::Mulhsu(..) | Inst::Mulhu(..) => Price::Product,
        Inst::Div(..) | Inst::Divu(..) | Inst::Rem(..) | Inst::Remu(..) => Price::Quotient,
        _ => Price::One,
    }
}
