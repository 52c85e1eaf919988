//! The last ten minutes, second by second.

use std::alloc::{AllocError, Global};

/// How many seconds are kept.
const MOST: usize = 600;

/// What happened in one second.
#[derive(Clone, Copy)]
pub struct Point {
    /// How many commits were published in it.
    pub commits: u64,
    /// How many screens there were at its end.
    pub screens: u64,
    /// How long the slowest commit took, in microseconds.
    pub slowest_us: u64,
}

impl Point {
    fn nothing(screens: u64) -> Point {
        Point {
            commits: 0,
            screens,
            slowest_us: 0,
        }
    }
}

/// The last second that is over.
#[derive(Clone, Copy)]
pub struct Latest {
    /// How many seconds are over since the start.
    pub second: u64,
    /// What happened in the last of them; none before one is over.
    pub point: Option<Point>,
}

/// A point for each of the last 600 seconds. It never takes more memory than at first.
#[derive(Drop)]
pub struct Plots {
    /// The point of each second, at its number modulo 600.
    points: Vec<Point>,
    /// The number of the second that is not over.
    second: u64,
    /// What happened in it so far.
    point: Point,
}

impl Plots {
    /// Nothing happened yet.
    pub fn new(alloc: Global) -> Result<Plots, AllocError> {
        let mut points = Vec::with_capacity(alloc, MOST)?;
        for _ in 0..MOST {
            points.push(Point::nothing(0))?;
        }
        Ok(Plots {
            points,
            second: 0,
            point: Point::nothing(0),
        })
    }

    /// So many commits took so many microseconds each, in this second.
    pub fn add(&mut self, commits: u64, time: u64) {
        self.point.commits = self.point.commits.saturating_add(commits);
        self.point.slowest_us = self.point.slowest_us.max(time);
    }

    /// It is now this second after the start, and there were so many screens up to now.
    pub fn advance(&mut self, second: u64, screens: u64) {
        if second <= self.second {
            return;
        }
        self.point.screens = screens;
        self.put(self.second, self.point);
        let missed = second.saturating_sub(self.second).min(MOST as u64 + 1);
        for back in 1..missed {
            self.put(second.saturating_sub(back), Point::nothing(screens));
        }
        self.second = second;
        self.point = Point::nothing(screens);
    }

    fn put(&mut self, second: u64, point: Point) {
        let at = (second % MOST as u64) as usize;
        if let Some(place) = self.points.get_mut(at) {
            *place = point;
        }
    }

    fn at(&self, second: u64) -> Option<Point> {
        let at = (second % MOST as u64) as usize;
        self.points.get(at).copied()
    }

    /// The last second that is over.
    pub fn latest(&self) -> Latest {
        let point = match self.second {
            0 => None,
            second => self.at(second - 1),
        };
        Latest {
            second: self.second,
            point,
        }
    }

    /// The points of the seconds that are over, the oldest first: at most 600.
    pub fn points(&self, alloc: Global) -> Result<Vec<Point>, AllocError> {
        let mut points = Vec::new(alloc);
        for second in self.second.saturating_sub(MOST as u64)..self.second {
            if let Some(point) = self.at(second) {
                points.push(point)?;
            }
        }
        Ok(points)
    }
}

/// What is told as JSON: each point as the number of its commits, that of its screens, and the
/// microseconds of its slowest commit.
#[derive(Drop)]
pub(crate) struct PlotsJson {
    pub(crate) second: u64,
    pub(crate) points: Vec<[u64; 3]>,
}

impl PlotsJson {
    pub(crate) fn of(alloc: Global, plots: &Plots) -> Result<PlotsJson, AllocError> {
        let mut points = Vec::new(alloc);
        for point in &plots.points(alloc)? {
            points.push([point.commits, point.screens, point.slowest_us])?;
        }
        Ok(PlotsJson {
            second: plots.second,
            points,
        })
    }
}
