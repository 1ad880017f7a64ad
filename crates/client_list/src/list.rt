// The list of the clients whose packets go as channels, and its text.
ghost use Rattle.std.specs.Prelude.{◌≡◌, ◌↔◌, ℕ, List, IfNone, IfSome, IsSome, IsTrue};
ghost use Rattle.client_list.specs.ClientLists.{IsClientList, clients_text};

use arrayvec::ArrayVec;
use number_lists::numbers_of;
use otn_base::limits::CLIENTS;
use std::marker::Model;

/// The numbers of the clients whose packets go as channels: one at least, rising, 0 to 15. Contracts see them as their
/// list.
#[derive(Clone, Debug, PartialEq, Eq, Drop)]
pub struct ClientList {
    list: ArrayVec<u8, CLIENTS>,
}

impl Model for ClientList {
    ghost use Rattle.std.specs.Prelude.{ℕ, List};
    ghost use Rattle.client_list.specs.ClientLists.{IsClientList};

    ghost Value = { List ℕ };

    ghost view = { λ c. c.list.items };

    ghost invariant = { λ c. IsClientList c.list.items };

    ghost inverse = { λ clients. record { list = record { items = clients } } };
}

impl ClientList {
    /// The clients of these numbers. None where there is none, one of them is above 15, or they do not rise strictly.
    #[tactic(auto, using(crate::proofs::ClientLists::few))]
    pub fn new(list: &[u8]) -> Option<ClientList>
        ensures accepted { IsSome result ↔ IsClientList list.now }
        ensures same { IfSome result (λ clients. clients ≡ list.now) }
    {
        if !is_client_list(list) {
            return None;
        }
        let mut clients = ArrayVec::new();
        match clients.try_extend_from_slice(list) {
            Ok(()) => Some(ClientList { list: clients }),
            Err(_) => None,
        }
    }

    /// The clients that this text lists, as `0,5,12`: numbers in decimal with no needless zero, commas between them.
    pub fn of_text(text: &[u8]) -> Option<ClientList>
        ensures clients { IfSome result (λ clients. text.now ≡ clients_text clients) }
        ensures none { IfNone result ((clients : List ℕ) → IsClientList clients → text.now ≡ clients_text clients → ⊥) }
    {
        let list: ArrayVec<u8, CLIENTS> = numbers_of(text, CLIENTS as u8)?;
        ClientList::new(list.as_slice())
    }

    /// The numbers of the clients.
    pub fn as_slice(&self) -> &[u8]
        ensures same { result.now ≡ self.now }
        ensures list { IsClientList self.now }
    {
        self.list.as_slice()
    }
}

// Whether the list is not empty, rises strictly, and has numbers of places alone.
fn is_client_list(list: &[u8]) -> bool
    ensures { IsTrue result ↔ IsClientList list.now }
{
    !list.is_empty()
        && list.iter().all(|&client| client < CLIENTS as u8)
        && list.windows(2).all(|pair| pair[0] < pair[1])
}
