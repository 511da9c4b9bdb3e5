//! Equality of services, accounts and openings.
ghost use Rattle.std.specs.Prelude.{◌≡◌, ◌↔◌, IsTrue};
ghost use Rattle.gixp_transport.specs.Handshake.{account_value};
ghost use Rattle.gixp_transport.specs.Service.{opening_value};

use crate::service::{Account, Opening, Service};

fn is_same_service(a: &Service, b: &Service) -> bool
    ensures { IsTrue result ↔ (a.now ≡ b.now) }
{
    a == b
}

fn is_same_account(left: &Account, right: &Account) -> bool
    ensures { IsTrue result ↔ (account_value left.now ≡ account_value right.now) }
{
    left == right
}

fn is_same_opening(one: &Opening, other: &Opening) -> bool
    ensures { IsTrue result ↔ (opening_value one.now ≡ opening_value other.now) }
{
    one == other
}
