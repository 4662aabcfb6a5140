//! The keys of the nodes, the points and the entries of a certificate.
ghost use Rattle.std.specs.Prelude.{◌≡◌, ◌<◌, ◌≤◌, length, IfOk};
ghost use Rattle.cert_text.specs.Certificate.{IsCertificate};
ghost use Rattle.certificate_nodes.specs.Keys.{child_key, child_keys, entry_key, entry_keys, parent_at, parents_of, point_key, point_keys};
ghost use Rattle.limits.specs.Limits.{most_cells, widest_grid};

use cert_text::Cert;
use points::Point;
use std::alloc::{AllocError, Global};

/// How many cells there are.
pub(crate) fn cell_count(cert: &Cert) -> u32
    ensures count { result ≡ cert.now.head.cells }
    ensures few { cert.now.head.cells ≤ most_cells widest_grid }
    ensures certificate { IsCertificate cert.now }
{
    let _version = cert.version();
    cert.cells() as u32
}

/// The parent of a node.
fn parent_at(cert: &Cert, n: usize) -> u32
    requires { n < cert.now.head.cells }
    ensures { result ≡ parent_at cert.now n }
{
    let _count = cell_count(cert);
    let (parent, _) = cert.node(n);
    parent as u32
}

/// The parents of all nodes.
pub(crate) fn parents(alloc: Global, cert: &Cert) -> Result<Vec<u32>, AllocError>
    ensures certificate { IsCertificate cert.now }
    ensures parents { IfOk result (λ v. v.items ≡ parents_of cert.now) }
{
    let count = cell_count(cert) as usize;
    let mut parents = Vec::with_capacity(alloc, count)?;
    for n in 0..count {
        parents.push(parent_at(cert, n))?;
    }
    Ok(parents)
}

/// The key of a node among the children.
fn child_key(cert: &Cert, n: usize) -> u32
    requires { n < cert.now.head.cells }
    ensures { result ≡ child_key cert.now n }
{
    if n == 0 {
        cell_count(cert)
    } else {
        parent_at(cert, n)
    }
}

/// The keys of all nodes among the children.
pub(crate) fn child_keys(alloc: Global, cert: &Cert) -> Result<Vec<u32>, AllocError>
    ensures { IfOk result (λ v. v.items ≡ child_keys cert.now) }
{
    let count = cell_count(cert) as usize;
    let mut keys = Vec::with_capacity(alloc, count)?;
    for n in 0..count {
        keys.push(child_key(cert, n))?;
    }
    Ok(keys)
}

/// The key of an entry.
fn entry_key(cert: &Cert, e: usize) -> u32
    requires { e < cert.now.head.entries }
    ensures { result ≡ entry_key cert.now e }
{
    let _count = cell_count(cert);
    cert.entry(e).b as u32
}

/// The keys of all entries.
pub(crate) fn entry_keys(alloc: Global, cert: &Cert) -> Result<Vec<u32>, AllocError>
    ensures { IfOk result (λ v. v.items ≡ entry_keys cert.now) }
{
    let count = cert.entries() as usize;
    let mut keys = Vec::with_capacity(alloc, count)?;
    for e in 0..count {
        keys.push(entry_key(cert, e))?;
    }
    Ok(keys)
}

/// The key of a point, among the sources or among the targets.
fn point_key(p: &Point, node: u32, other: u32, sources: bool) -> u32
    ensures { result ≡ point_key sources p.now node other }
{
    if p.kind.is_source() {
        if sources { node } else { other }
    } else if sources {
        other
    } else {
        node
    }
}

/// The keys of all points, among the sources or among the targets. Condition: the certificate counts them.
pub(crate) fn point_keys(
    alloc: Global,
    points: &[Point],
    cert: &Cert,
    sources: bool,
) -> Result<Vec<u32>, AllocError>
    requires { cert.now.head.points ≡ length points.now }
    ensures { IfOk result (λ v. v.items ≡ point_keys cert.now sources points.now) }
{
    let other = cell_count(cert);
    let mut keys = Vec::with_capacity(alloc, points.len())?;
    for (k, p) in points.iter().enumerate() {
        let node = cert.at(k) as u32;
        keys.push(point_key(p, node, other, sources))?;
    }
    Ok(keys)
}
