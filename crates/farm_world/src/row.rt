//! The site that a schedule runs over where no site file is given.

ghost use Rattle.std.specs.Prelude.{◌≡◌, ◌++◌, ◌∷◌, [], None, IfOk, OnOk};
ghost use Rattle.dia_base.specs.Identity.{fault_of};
ghost use Rattle.farm_base.specs.RowSite.{the_row_site, row_nodes, row_links, row_routes, row_tariffs, row_accounts, account, node, route};

use cc_book::Account;
use cc_rating::{Tariff, UnitKind};
use dia_avp::Octets;
use dia_base::codes::CREDIT_CONTROL_APPLICATION;
use dia_base::{HISTORY_LIMIT, Identity, Listing, NodeKind, NodeNo, QUEUE_LIMIT};
use farm_model::{Link, Node, Route, Site};
use std::alloc::{AllocError, Global};

const R1: NodeNo = NodeNo(0);

const R2: NodeNo = NodeNo(1);

const F1: NodeNo = NodeNo(2);

const F2: NodeNo = NodeNo(3);

const C1: NodeNo = NodeNo(4);

const C2: NodeNo = NodeNo(5);

/// The row site: two relays, two fronts, two clients, and the prepaid realm `ocs.example`.
pub fn row_site(alloc: Global) -> Result<Site, AllocError>
    ensures { IfOk result (λ site. site ≡ the_row_site) }
{
    Ok(Site {
        realm: identity(alloc, b"ocs.example")?,
        validity: 600,
        limit: HISTORY_LIMIT,
        workers: 2,
        queue: QUEUE_LIMIT,
        vendors: Listing::from_vec(vec![in alloc; 10415]?),
        known: Listing::empty(alloc),
        tolerate: Listing::empty(alloc),
        advertise: Listing::empty(alloc),
        currency: 978,
        exponent: -2,
        watchdog: 30_000,
        nodes: nodes(alloc)?,
        links: links(alloc)?,
        routes: routes(alloc)?,
        tariffs: tariffs(alloc)?,
        accounts: accounts(alloc)?,
    })
}

fn identity(alloc: Global, text: &[u8]) -> Result<Identity, AllocError>
    requires { fault_of text.now ≡ None }
    ensures { IfOk result (λ identity. identity ≡ text.now) }
{
    Identity::read(alloc, text).map_err(|_| AllocError)
}

fn node(alloc: Global, name: &[u8], kind: NodeKind) -> Result<Node, AllocError>
    requires { fault_of name.now ≡ None }
    ensures { IfOk result (λ made. made ≡ node name.now kind) }
{
    Ok(Node {
        name: identity(alloc, name)?,
        kind,
        address: None,
    })
}

fn push_node(
    alloc: Global,
    nodes: &mut Vec<Node>,
    name: &[u8],
    kind: NodeKind,
) -> Result<(), AllocError>
    requires { fault_of name.now ≡ None }
    ensures { OnOk result (nodes.new.items ≡ nodes.old.items ++ node name.now kind ∷ []) }
{
    nodes.push(node(alloc, name, kind)?)?;
    Ok(())
}

fn nodes(alloc: Global) -> Result<Listing<Node>, AllocError>
    ensures { IfOk result (λ nodes. nodes ≡ row_nodes) }
{
    let mut nodes = Vec::new(alloc);
    push_node(alloc, &mut nodes, b"r1.example", NodeKind::Relay)?;
    push_node(alloc, &mut nodes, b"r2.example", NodeKind::Relay)?;
    push_node(alloc, &mut nodes, b"f1.example", NodeKind::Front)?;
    push_node(alloc, &mut nodes, b"f2.example", NodeKind::Front)?;
    push_node(alloc, &mut nodes, b"c1.example", NodeKind::Client)?;
    push_node(alloc, &mut nodes, b"c2.example", NodeKind::Client)?;
    Ok(Listing::from_vec(nodes))
}

fn links(alloc: Global) -> Result<Listing<Link>, AllocError>
    ensures { IfOk result (λ links. links ≡ row_links) }
{
    let links = vec![in alloc;
        Link { from: C1, to: R1 },
        Link { from: C2, to: R1 },
        Link { from: C1, to: F1 },
        Link { from: R1, to: R2 },
        Link { from: R1, to: F1 },
        Link { from: R1, to: F2 },
        Link { from: R2, to: F1 },
        Link { from: R2, to: F2 },
    ]?;
    Ok(Listing::from_vec(links))
}

fn route(alloc: Global, at: NodeNo, realm: &[u8], peers: &[NodeNo]) -> Result<Route, AllocError>
    requires { fault_of realm.now ≡ None }
    ensures { IfOk result (λ made. made ≡ route «at» realm.now peers.now) }
{
    Ok(Route {
        at,
        realm: identity(alloc, realm)?,
        app: CREDIT_CONTROL_APPLICATION,
        peers: Listing::from_vec(Vec::from_slice(alloc, peers)?),
    })
}

fn push_route(
    alloc: Global,
    routes: &mut Vec<Route>,
    at: NodeNo,
    realm: &[u8],
    peers: &[NodeNo],
) -> Result<(), AllocError>
    requires { fault_of realm.now ≡ None }
    ensures { OnOk result (routes.new.items ≡ routes.old.items ++ route «at» realm.now peers.now ∷ []) }
{
    routes.push(route(alloc, at, realm, peers)?)?;
    Ok(())
}

fn routes(alloc: Global) -> Result<Listing<Route>, AllocError>
    ensures { IfOk result (λ routes. routes ≡ row_routes) }
{
    let mut routes = Vec::new(alloc);
    push_route(alloc, &mut routes, R1, b"ocs.example", &[F1, F2, R2])?;
    push_route(alloc, &mut routes, R2, b"ocs.example", &[F1, F2])?;
    push_route(alloc, &mut routes, R1, b"loop.example", &[R2])?;
    push_route(alloc, &mut routes, R2, b"loop.example", &[R1])?;
    Ok(Listing::from_vec(routes))
}

/// Rating-Group 10: octets, 5 minor units for each block of 1000.
fn tariffs(alloc: Global) -> Result<Listing<Tariff>, AllocError>
    ensures { IfOk result (λ tariffs. tariffs ≡ row_tariffs) }
{
    let tariff = Tariff {
        group: Some(10),
        ident: None,
        kind: UnitKind::Octets,
        block: 1_000,
        price: 5,
        quantum: 5_000,
        greatest: 10_000,
    };
    Ok(Listing::from_vec(vec![in alloc; tariff]?))
}

/// The Subscription-Id-Type of a telephone number (RFC 8506, section 8.47).
const E164: u32 = 0;

fn account(alloc: Global, id: &[u8], opening: i64) -> Result<Account, AllocError>
    ensures { IfOk result (λ made. made ≡ account id.now opening) }
{
    Ok(Account {
        id_kind: E164,
        id: Octets::copy_of(alloc, id)?,
        opening,
    })
}

fn push_account(
    alloc: Global,
    accounts: &mut Vec<Account>,
    id: &[u8],
    opening: i64,
) -> Result<(), AllocError>
    ensures { OnOk result (accounts.new.items ≡ accounts.old.items ++ account id.now opening ∷ []) }
{
    accounts.push(account(alloc, id, opening)?)?;
    Ok(())
}

fn accounts(alloc: Global) -> Result<Listing<Account>, AllocError>
    ensures { IfOk result (λ accounts. accounts ≡ row_accounts) }
{
    let mut accounts = Vec::new(alloc);
    push_account(alloc, &mut accounts, b"491700000001", 1_000)?;
    push_account(alloc, &mut accounts, b"491700000002", 12)?;
    push_account(alloc, &mut accounts, b"491700000003", 4)?;
    push_account(alloc, &mut accounts, b"491700000004", 27)?;
    push_account(alloc, &mut accounts, b"491700000005", 25)?;
    Ok(Listing::from_vec(accounts))
}
