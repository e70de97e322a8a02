//! The certificates of one leg.
ghost use Rattle.std.specs.Prelude.{◌≡◌, ◌<◌, ◌≤◌, ◌↔◌, [], Some, length, map, slice_get, IfOk, IsTrue};
ghost use Rattle.std.specs.Option.{option_map};
ghost use Rattle.lp_cert.specs.Beside.{BeginWith};
ghost use Rattle.lp_cert.specs.Ends.{cert_head};
ghost use Rattle.lp_cert.specs.Waiters.{kept_cert};
ghost use Rattle.lp_cert.specs.inside.Bare.{bare_certs};
ghost use Rattle.lp_cert.specs.inside.Waiters.{AreHeads};

use crate::cert_head::{CertHead, CommonHead};
use crate::cert_lines::CertLines;
use crate::chains::Chains;
use crate::head::Waiter;
use lp_definitions::Cert;
use lp_stack::GroupId;
use std::alloc::{AllocError, Global};
use std::marker::Model;

/// A list of certificates of one leg, of which each is written out when it is asked for. They
/// share the older reasons and the scans of the leg.
///
/// Contracts see the list.
pub struct CertList {
    head: CommonHead,
    waiters: Vec<Waiter>,
    chains: Chains,
    scans: Vec<u32>,
}

/// By hand, so that the proof of who owns one lets go of it in one step, not field by field.
impl Drop for CertList {
    fn drop(self) {
        let CertList {
            head: _,
            waiters: _,
            chains: _,
            scans: _,
        } = self;
    }
}

impl Model for CertList {
    ghost use Rattle.std.specs.Prelude.{List, length, map};
    ghost use Rattle.lp_definitions.specs.declared.cert.Cert.{Cert};
    ghost use Rattle.lp_cert.specs.Waiters.{kept_cert};
    ghost use Rattle.lp_cert.specs.inside.Waiters.{AreHeads};

    ghost Value = { List Cert };

    ghost view = { λ c. map (kept_cert c.head.claim c.head.leg c.head.upto c.chains.lists c.scans.items) c.waiters.items };

    ghost invariant = { λ c. AreHeads c.chains.lists (length c.scans.items) c.waiters.items };
}

impl CertList {
    /// The certificates of these groups, over their older reasons and the scans of the leg.
    pub(crate) fn new(
        head: CommonHead,
        waiters: Vec<Waiter>,
        chains: Chains,
        scans: Vec<u32>,
    ) -> CertList
        requires { AreHeads chains.lists (length scans.items) waiters.items }
        ensures { result ≡ map (kept_cert head.claim head.leg head.upto chains.lists scans.items) waiters.items }
    {
        CertList {
            head,
            waiters,
            chains,
            scans,
        }
    }

    /// The certificates, borrowed.
    pub fn borrowed(&self) -> CertListRef<'_>
        ensures { result ≡ self.now }
    {
        CertListRef {
            kept: KeptRef::Many(self),
        }
    }
}

/// The certificates of one leg, borrowed from a list of them or of ends of legs.
///
/// Contracts see the list.
#[derive(Drop)]
pub struct CertListRef<'a> {
    kept: KeptRef<'a>,
}

/// What is borrowed: groups without any reason, or groups with their reasons.
#[derive(Clone, Copy)]
pub(crate) enum KeptRef<'a> {
    Bare(CommonHead, &'a [GroupId]),
    Many(&'a CertList),
}

impl<'a> Model for CertListRef<'a> {
    ghost use Rattle.std.specs.Prelude.{List};
    ghost use Rattle.lp_definitions.specs.declared.cert.Cert.{Cert};
    ghost use Rattle.lp_cert.specs.inside.Kept.{certs_borrowed};

    ghost Value = { List Cert };

    ghost view = { λ c. certs_borrowed c.kept };
}

impl<'a> CertListRef<'a> {
    /// Those of groups without any reason.
    pub(crate) fn bare(head: CommonHead, groups: &'a [GroupId]) -> CertListRef<'a>
        ensures { result ≡ bare_certs head groups.now }
    {
        CertListRef {
            kept: KeptRef::Bare(head, groups),
        }
    }

    /// How many certificates there are.
    pub fn len(&self) -> usize
        ensures { result ≡ length self.now }
    {
        match self.kept {
            KeptRef::Bare(_, groups) => groups.len(),
            KeptRef::Many(many) => many.waiters.len(),
        }
    }

    /// Whether there is no certificate.
    pub fn is_empty(&self) -> bool
        ensures { IsTrue result ↔ (self.now ≡ []) }
    {
        self.len() == 0
    }

    /// The certificate at a place, from 0, if there are so many; AllocError where an allocation
    /// failed.
    pub fn cert(&self, alloc: Global, place: usize) -> Result<Option<Cert>, AllocError>
        ensures { IfOk result (λ found. found ≡ slice_get self.now place) }
    {
        if place >= self.len() {
            return Ok(None);
        }
        let CertHead {
            claim,
            leg,
            group,
            upto,
        } = self.head(place);
        Ok(Some(Cert {
            claim,
            leg,
            group,
            upto,
            lines: self.lines(place).collect(alloc)?,
        }))
    }

    /// The certificate at a place, from 0, without its lines.
    #[inline(always)]
    pub fn head(&self, place: usize) -> CertHead
        requires { place < length self.now }
        ensures { option_map cert_head (slice_get self.now place) ≡ Some result }
    {
        match self.kept {
            KeptRef::Bare(head, groups) => head.of_group(groups, place),
            KeptRef::Many(many) => CertHead {
                claim: many.head.claim,
                leg: u64::from(many.head.leg),
                group: many.waiters[place].group,
                upto: u64::from(many.head.upto),
            },
        }
    }

    /// Whether it is known of the certificate at a place, from 0, that it has no line: then none has to be asked for, which
    /// costs much more. It may have none where this says false.
    #[inline(always)]
    pub fn is_bare(&self, place: usize) -> bool
        requires { place < length self.now }
        ensures { IsTrue result → option_map (λ cert. cert.lines) (slice_get self.now place) ≡ Some [] }
    {
        match self.kept {
            KeptRef::Bare(_, _) => true,
            KeptRef::Many(many) => many.waiters[place].head.is_bare(&many.chains),
        }
    }

    /// How many lines the certificate at a place, from 0, has at least that others may begin with too: none where nobody was
    /// born, and else those of all reasons but for one that continues.
    #[inline(always)]
    pub fn older_lines(&self, place: usize) -> usize
        requires { place < length self.now }
        ensures { (cert : Cert) → slice_get self.now place ≡ Some cert → result ≤ length cert.lines }
    {
        match self.kept {
            KeptRef::Bare(_, _) => 0,
            KeptRef::Many(many) => { many.chains.lines_to_share(many.waiters[place].head.older) }
        }
    }

    /// How many of the first lines of the certificate at one place, from 0, are those of the certificate at another, but no
    /// more than so many, and the lines after these. Never allocates.
    #[inline(always)]
    pub fn lines_beside(&self, place: usize, other: usize, most: usize) -> (usize, CertLines<'a>)
        requires place { place < length self.now }
        requires other { other < length self.now }
        requires most { most < 18446744073709551615 }
        ensures few { result.0 ≤ most }
        ensures lines { (cert beside : Cert) → slice_get self.now place ≡ Some cert → slice_get self.now other ≡ Some beside → BeginWith cert.lines beside.lines result.0 result.1 }
    {
        match self.kept {
            KeptRef::Bare(_, _) => (0, CertLines::none()),
            KeptRef::Many(many) => {
                let chains = &many.chains;
                let (one, beside) = (many.waiters[place], many.waiters[other]);
                let shared = chains.shared(one.head.older, beside.head.older, most);
                let after = one
                    .head
                    .lines_after(chains, many.scans.as_slice(), one.group, shared);
                (chains.lines(shared), after)
            }
        }
    }

    /// The lines of the certificate at a place, from 0, one at a time. Never allocates.
    pub fn lines(&self, place: usize) -> CertLines<'a>
        requires { place < length self.now }
        ensures { option_map (λ cert. cert.lines) (slice_get self.now place) ≡ Some result }
    {
        match self.kept {
            KeptRef::Bare(_, _) => CertLines::none(),
            KeptRef::Many(many) => {
                let Waiter { group, head } = many.waiters[place];
                head.lines(&many.chains, many.scans.as_slice(), group)
            }
        }
    }
}

impl CommonHead {
    /// The certificate of the group at a place, without its lines, of which there is none.
    fn of_group(self, groups: &[GroupId], place: usize) -> CertHead
        requires { place < length groups.now }
        ensures { option_map cert_head (slice_get (bare_certs self groups.now) place) ≡ Some result }
    {
        CertHead {
            claim: self.claim,
            leg: u64::from(self.leg),
            group: groups[place],
            upto: u64::from(self.upto),
        }
    }
}
