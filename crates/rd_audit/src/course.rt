//! What came of each request at its device, by the devices' journals.

ghost use Rattle.std.specs.Prelude.{◌≡◌, IfOk, Some, slice_get, option_and_then};
ghost use Rattle.rd_audit.specs.declared.course.Course.{Course};
ghost use Rattle.rd_audit.specs.Completions.{has_come};
ghost use Rattle.rd_audit.specs.Kept.{Changes, KeepsCourses, key_places, with_course, with_item};
ghost use Rattle.rd_audit.specs.Replayed.{no_course};

use rd_base::Key;
use rd_recorded::HeardChannel;
use std::alloc::{AllocError, Global};
use std::marker::Model;

/// What its device gave a request.
#[derive(Clone, Copy, Debug, PartialEq, Eq)]
pub enum Given {
    /// Nothing, and it never came.
    Absent,
    /// Nothing yet.
    Nothing,
    /// A reply.
    Reply {
        /// The entry of the journal.
        item: u64,
        /// Whether it is what the completion of the request says.
        same: bool,
        /// Whether a cut gave it.
        cut: bool,
    },
    /// It was given up before it ran.
    Cancelled,
}

/// Where the completion of a request was handed out.
#[derive(Clone, Copy, Debug, PartialEq, Eq)]
pub struct Handed {
    /// The entry of the journal.
    pub item: u64,
    /// The entry of the recording that ended the last request which had come to the device before.
    pub heard: u64,
}

/// What came of a request.
#[derive(Clone, Copy, Debug, PartialEq, Eq)]
pub struct Course {
    pub given: Given,
    pub sent: Option<Handed>,
}

impl Course {
    /// Whether the request came to its device.
    pub fn came(self) -> bool
        ensures { result ≡ has_come self }
    {
        self.given != Given::Absent
    }
}

/// What came of each request of each channel.
#[derive(Drop)]
pub struct Courses {
    channels: Vec<Vec<Course>>,
}

impl Model for Courses {
    ghost use Rattle.std.specs.Prelude.{List, map};
    ghost use Rattle.rd_audit.specs.declared.course.Course.{Course};

    ghost Value = { List (List Course) };

    ghost view = { λ c. map (λ v. v.items) c.channels.items };
}

impl Courses {
    /// Of requests that didn't come.
    pub fn new(alloc: Global, channels: &[HeardChannel<'_>]) -> Result<Courses, AllocError>
        ensures { IfOk result (λ courses. KeepsCourses channels.now (λ key. no_course) courses) }
    {
        let absent = Course {
            given: Given::Absent,
            sent: None,
        };
        let mut courses = Vec::with_capacity(alloc, channels.len())?;
        for channel in channels {
            courses.push(vec![in alloc; absent; channel.requests.len()]?)?;
        }
        Ok(Courses { channels: courses })
    }

    /// What came of the request with an index on the channel at a place.
    pub fn at(&self, channel: usize, index: usize) -> Option<Course>
        ensures { result ≡ option_and_then (λ c. slice_get c index) (slice_get self.now channel) }
    {
        self.channels.get(channel)?.get(index).copied()
    }

    /// The device gave this to the request of a key.
    pub fn give(&mut self, key: Key, given: Given)
        ensures { Changes key (λ (c : Course). record c { given = given }) self.old self.new }
    {
        if let Some((channel, index)) = key_places(key) {
            if let Some(course) = self.at(channel, index) {
                self.put(
                    channel,
                    index,
                    Course {
                        given,
                        sent: course.sent,
                    },
                );
            }
        }
    }

    /// The completion of the request of a key was handed out.
    pub fn send(&mut self, key: Key, handed: Handed)
        ensures { Changes key (λ (c : Course). record c { sent = Some handed }) self.old self.new }
    {
        if let Some((channel, index)) = key_places(key) {
            if let Some(course) = self.at(channel, index) {
                self.put(
                    channel,
                    index,
                    Course {
                        given: course.given,
                        sent: Some(handed),
                    },
                );
            }
        }
    }

    /// This came of the request with an index on the channel at a place.
    fn put(&mut self, channel: usize, index: usize, course: Course)
        ensures { self.new ≡ with_course channel index course self.old }
    {
        if let Some(courses) = self.channels.get_mut(channel) {
            put_at(courses, index, course);
        }
    }
}

/// This came of the request with an index.
fn put_at(courses: &mut Vec<Course>, index: usize, course: Course)
    ensures { courses.new.items ≡ with_item index course courses.old.items }
{
    if let Some(kept) = courses.get_mut(index) {
        *kept = course;
    }
}

/// The places of a key's channel among the channels and of its request among the channel's requests.
fn key_places(key: Key) -> Option<(usize, usize)>
    ensures { result ≡ key_places key }
{
    if key.channel == 0 {
        return None;
    }
    Some(((key.channel - 1) as usize, key.index as usize))
}
