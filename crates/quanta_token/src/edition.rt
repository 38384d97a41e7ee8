// Copyright 2026 Quantova Inc
// SPDX-License-Identifier: Apache-2.0 OR MIT

// The editions of the reading rules: new filings move to the second, old filings keep the first.
ghost use Rattle.std.specs.Prelude.{◌≡◌};
ghost use Rattle.quanta_token.specs.Editions.{edition_of};

#[derive(Clone, Copy, Debug, PartialEq, Eq)]
pub enum Edition {
    One,
    Two,
}

// A number that is no edition's.
#[derive(Clone, Copy, Debug, PartialEq, Eq)]
pub struct UnknownEdition;

impl TryFrom<u32> for Edition {
    type Error = UnknownEdition;

    ghost try_from_gives = { λ number edition. edition ≡ edition_of number };

    #[tactic(auto, unfolding(crate::specs::Editions::edition_of))]
    fn try_from(number: u32) -> Result<Edition, UnknownEdition> {
        match number {
            1 => Ok(Edition::One),
            2 => Ok(Edition::Two),
            _ => Err(UnknownEdition),
        }
    }
}
