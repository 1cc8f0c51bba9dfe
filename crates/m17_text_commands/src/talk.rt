ghost use Rattle.std.specs.Prelude.{◌≡◌, ◌≢◌, ◌<◌, ◌≤◌, ◌==◌, ◌+◌, ◌-◌, None, Some, false, bit_xor, if◌then◌else◌};

use crate::draws::Draws;
use crate::hotspot::{Hotspot, MODULES};
use crate::made::Made;

/// How many hotspots each module has.
const SEATS: u8 = 4;

/// How many stream ids there are.
const STREAM_IDS: u32 = 65_536;

/// The fewest frames of a stream, and the end of how many more it may have.
const FEWEST: u8 = 25;

const MORE: u32 = 100;

/// How many draws there are for a frame.
const CASES: u32 = 20;

/// How many turns a module rests after a stream.
const REST: u8 = 5;

// What a module has between its turns.
#[derive(Clone, Copy, Debug)]
pub(crate) struct Talk {
    // How many frames the stream has left; 0 where there is no stream.
    pub(crate) left: u8,
    // How many turns the module rests.
    pub(crate) rest: u8,
    // The number of the next frame.
    pub(crate) number: u16,
    // The hotspot that talks.
    pub(crate) who: u8,
    // Its stream id.
    pub(crate) sid: u16,
    // The number of a frame that is held back.
    pub(crate) held: Option<u16>,
}

impl Talk {
    ghost use Rattle.m17_text_commands.specs.declared.made.Made.TheVariants.{Frame};
    ghost use Rattle.m17_text_commands.specs.Talk.{IsSteady, Turned, silent, taken, spoken, begun, own_frame, other_of, made_by, talk_by, awake};

    // A module before its first turn.
    pub(crate) fn silent() -> Talk
        ensures { result ≡ silent }
    {
        Talk {
            left: 0,
            rest: 0,
            number: 0,
            who: 0,
            sid: 0,
            held: None,
        }
    }

    // The turn of the module with this number, 0 to 2.
    #[tactic(auto, unfolding(crate::specs::Talk::taken))]
    pub(crate) fn turn(&mut self, of: u8, draws: &mut Draws) -> Made
        requires within { of < 3 }
        requires steady { IsSteady self.old }
        ensures { Turned result self.new draws.new.x (taken of draws.old.x self.old) }
    {
        if self.rest > 0 {
            self.rest -= 1;
            return Made::Quiet;
        }
        match self.held {
            Some(number) => {
                self.held = None;
                self.own_frame(number, false)
            }
            None if self.left == 0 => self.begin(of, draws),
            None => self.speak(of, draws.draw(CASES)),
        }
    }

    // A new stream, and its first frame.
    fn begin(&mut self, of: u8, draws: &mut Draws) -> Made
        requires within { of < 3 }
        requires steady { IsSteady self.old }
        requires none_held { self.old.held ≡ None }
        requires at_the_end { self.old.left ≡ 0 }
        ensures { Turned result self.new draws.new.x (awake of draws.old.x self.old None) }
    {
        let seat = draws.draw(u32::from(SEATS)) as u8;
        self.who = of + MODULES * seat;
        self.sid = draws.draw(STREAM_IDS) as u16;
        self.left = FEWEST + draws.draw(MORE) as u8;
        self.number = 0;
        self.speak(of, draws.draw(CASES))
    }

    // The entry by a draw.
    #[tactic(auto, unfolding(crate::specs::Talk::made_by, crate::specs::Talk::talk_by))]
    fn speak(&mut self, of: u8, d: u32) -> Made
        requires within { of < 3 }
        requires steady { IsSteady self.old }
        requires some_left { 0 < self.old.left }
        ensures made { result ≡ made_by of d self.old }
        ensures talk { self.new ≡ talk_by d self.old }
    {
        match d {
            0 if self.number > 0 => self.own_frame(self.number - 1, false),
            1 => self.interrupt(of),
            2 if self.left >= 3 => self.swap(),
            _ => self.go_on(),
        }
    }

    // A frame of the stream that goes on.
    fn own_frame(&self, number: u16, last: bool) -> Made
        requires { self.now.who < 12 }
        ensures { result ≡ own_frame self.now number last }
    {
        Made::Frame {
            hotspot: Hotspot::new(self.who),
            sid: self.sid,
            number,
            last,
        }
    }

    // A first frame of another hotspot of the module.
    fn interrupt(&self, of: u8) -> Made
        requires { of < 3 }
        ensures { result ≡ Frame (other_of of self.now.who) (bit_xor self.now.sid 1) 0 false }
    {
        let seat = self.who.saturating_sub(of) / MODULES;
        Made::Frame {
            hotspot: Hotspot::new(of + MODULES * ((seat + 1) % SEATS)),
            sid: self.sid ^ 1,
            number: 0,
            last: false,
        }
    }

    // The frame after the next one, which is held back.
    fn swap(&mut self) -> Made
        requires steady { IsSteady self.old }
        requires two_left { 3 ≤ self.old.left }
        ensures made { result ≡ own_frame self.old (self.old.number + 1) false }
        ensures talk { self.new ≡ record self.old {
          held = Some self.old.number;
          number = self.old.number + 2;
          left = self.old.left - 2;
        } }
    {
        let made = self.own_frame(self.number + 1, false);
        self.held = Some(self.number);
        self.number += 2;
        self.left -= 2;
        made
    }

    // The next frame; after the last one the module rests.
    fn go_on(&mut self) -> Made
        requires steady { IsSteady self.old }
        requires some_left { 0 < self.old.left }
        ensures made { result ≡ own_frame self.old self.old.number (self.old.left == 1) }
        ensures talk { self.new ≡ record self.old {
          number = self.old.number + 1;
          left = self.old.left - 1;
          rest = if self.old.left == 1 then 5 else self.old.rest;
        } }
    {
        let made = self.own_frame(self.number, self.left == 1);
        self.number += 1;
        self.left -= 1;
        if self.left == 0 {
            self.rest = REST;
        }
        made
    }
}
