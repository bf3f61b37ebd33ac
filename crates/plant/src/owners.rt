ghost use Rattle.std.specs.Prelude.{◌≡◌, not, ◌&&◌, sum_by};
ghost use Rattle.std.specs.List.{list_all};
ghost use Rattle.plant.specs.Ranges.{share_fits};
ghost use Rattle.plant.specs.Records.{owned_by, each_once, owners_hold};

use crate::record::Owner;

// All shares of a resource together, in ten-thousandths; the largest share.
const WHOLE: u32 = 10_000;

fn share_fits(share: u32) -> bool
    ensures { result ≡ share_fits share }
{
    (1..=WHOLE).contains(&share)
}

pub(crate) fn shares_fit(owners: &[Owner]) -> bool
    ensures { result ≡ list_all (λ o. share_fits o.share) owners.now }
{
    owners.iter().all(|owner| share_fits(owner.share))
}

// Whether one of the owners is this account.
fn owned_by(account: usize, owners: &[Owner]) -> bool
    ensures { result ≡ owned_by account owners.now }
{
    owners.iter().any(|owner| owner.account == account)
}

// Whether no account is named twice.
fn each_once(owners: &[Owner]) -> bool
    ensures { result ≡ each_once owners.now }
{
    let mut rest = owners;
    while let [first, others @ ..] = rest {
        if owned_by(first.account, others) {
            return false;
        }
        rest = others;
    }
    true
}

// The sum of the shares; no list of them is too long for it.
fn share_sum(owners: &[Owner]) -> u128
    ensures { result ≡ sum_by (λ o. o.share) owners.now }
{
    owners.iter().map(|owner| u128::from(owner.share)).sum()
}

// Whether each owner is named once and the shares make a whole.
pub(crate) fn owners_hold(owners: &[Owner]) -> bool
    ensures { result ≡ owners_hold owners.now }
{
    each_once(owners) && share_sum(owners) == u128::from(WHOLE)
}
