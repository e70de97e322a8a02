//! The certificates of three legs, as a maker gives them, and as an outcome has them.
use super::*;

/// Each leg.
const LEGS: [Seen; 3] = [
    (2, Level(1), None, 1),
    (9, Level(0), Some(12), 1),
    (13, Level(1), None, 2),
];

/// The certificates of these legs, each with how many lines it has.
pub(super) fn heads() -> [(CertHead, usize); 4] {
    [
        (head(Claim::Waiting, 2, 2, 8), 3),
        (head(Claim::Floor, 9, 1, 11), 1),
        (head(Claim::Waiting, 13, 1, 15), 2),
        (head(Claim::Waiting, 13, 2, 15), 1),
    ]
}

/// The lines of these certificates.
pub(super) fn lines() -> [Line; 7] {
    [
        busy(1, 1, 3),
        born(2, 1, 4),
        hold(2, 2, 6, 8, 8),
        busy(1, 1, 11),
        busy(1, 1, 14),
        busy(1, 1, 15),
        hold(2, 2, 6, 14, 15),
    ]
}

/// What a maker gives of its legs.
#[derive(PartialEq, Eq, Drop)]
pub(super) struct Given {
    legs: Vec<Seen>,
    heads: Vec<(CertHead, usize)>,
    lines: Vec<Line>,
}

impl Given {
    /// Nothing yet, in a box.
    fn new(alloc: Global) -> Result<Box<Given>, AllocError> {
        let given = Given {
            legs: Vec::new(alloc),
            heads: Vec::new(alloc),
            lines: Vec::new(alloc),
        };
        Ok(Box::new(alloc, given)?)
    }

    /// One leg more.
    fn add(&mut self, alloc: Global, end: &LegEndRef<'_>) -> Result<(), AllocError> {
        self.legs.push(seen_of(end))?;
        for place in 0..end.certs.len() {
            let head = end.certs.head(place);
            if let Some(cert) = end.certs.cert(alloc, place)? {
                self.add_cert(head, &cert)?;
            }
        }
        Ok(())
    }

    /// One certificate more.
    fn add_cert(&mut self, head: CertHead, cert: &Cert) -> Result<(), AllocError> {
        self.heads.push((head, cert.lines.len()))?;
        self.lines.extend_from_slice(cert.lines.as_slice())?;
        Ok(())
    }

    /// The legs that ended.
    fn add_all(&mut self, alloc: Global, ends: LegEnds<'_>) -> Result<(), AllocError> {
        for end in ends {
            self.add(alloc, &end)?;
        }
        Ok(())
    }

    /// The leg under way.
    fn add_current(&mut self, alloc: Global, maker: &Maker) -> Result<(), AllocError> {
        match maker.current(alloc)? {
            Some(end) => self.add(alloc, &end.borrowed()),
            None => Ok(()),
        }
    }

    /// Whether it is what the definitions give.
    pub(super) fn is_worked(&self) -> bool {
        self.legs.as_slice() == LEGS.as_slice()
            && self.heads.as_slice() == heads().as_slice()
            && self.lines.as_slice() == lines().as_slice()
    }
}

/// What a maker gives of the legs that ended, and of the one under way.
pub(super) fn given_by(alloc: Global, maker: &Maker) -> Result<Box<Given>, AllocError> {
    let mut given = Given::new(alloc)?;
    given.add_all(alloc, maker.ended())?;
    given.add_current(alloc, maker)?;
    Ok(given)
}

/// The same of legs that were given up.
pub(super) fn given_in(alloc: Global, ends: LegEnds<'_>) -> Result<Box<Given>, AllocError> {
    let mut given = Given::new(alloc)?;
    given.add_all(alloc, ends)?;
    Ok(given)
}
