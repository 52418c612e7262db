// Images on pages. A page that is not open has all its bytes left.
ghost use Rattle.std.specs.Prelude.{◌≡◌, ◌<◌, ◌≤◌};
ghost use Rattle.pages.specs.State.{empty, put, there, put_back, first_room};

use crate::order::Image;
use crate::{IMAGES, PAGE};

// The bytes left on each page, the page of each image, in list order, and how many pages are open.
#[derive(Clone, Copy, Drop)]
pub struct State {
    pub free: [u16; IMAGES],
    pub pages: [u8; IMAGES],
    pub opened: u8,
}

// What a placement changes: the bytes left on its page, the image's page, and how many pages are open.
#[derive(Clone, Copy, Drop)]
pub struct There {
    pub room: u16,
    pub page: u8,
    pub opened: u8,
}

// The images in order, how many they are, those that are placed, and the best packing met.
#[derive(Drop)]
pub struct Search {
    pub images: [Image; IMAGES],
    pub count: usize,
    pub placed: State,
    pub best: State,
}

impl State {
    // No image is placed, and no page is open.
    pub(crate) fn empty() -> State
        ensures { result ≡ empty }
    {
        State {
            free: [PAGE; IMAGES],
            pages: [0; IMAGES],
            opened: 0,
        }
    }

    // What stands where the image is about to go on page `p`.
    pub(crate) fn there(&self, image: Image, p: u8) -> There
        requires { p < 32 }
        ensures { result ≡ there image p self.now }
    {
        There {
            room: self.free[usize::from(p)],
            page: self
                .pages
                .get(usize::from(image.index))
                .copied()
                .unwrap_or(0),
            opened: self.opened,
        }
    }

    // The same is made to stand there.
    pub(crate) fn put_back(&mut self, image: Image, p: u8, there: There)
        requires { p < 32 }
        ensures { self.new ≡ put_back image p there self.old }
    {
        self.free[usize::from(p)] = there.room;
        self.opened = there.opened;
        let index = usize::from(image.index);
        if index < IMAGES {
            self.pages[index] = there.page;
        }
    }

    // The image goes on page `p`.
    pub(crate) fn put(&mut self, image: Image, p: u8)
        requires { p < 32 }
        ensures { self.new ≡ put image p self.old }
    {
        let room = self.free[usize::from(p)];
        self.put_back(
            image,
            p,
            There {
                room: room.saturating_sub(image.size),
                page: p,
                opened: self.opened.max(p + 1),
            },
        );
    }

    // The first open page with room for so many bytes, else the page behind them.
    #[tactic(auto, unfolding(crate::specs::State::first_room))]
    pub(crate) fn first_room(&self, size: u16) -> u8
        requires { self.now.opened ≤ 32 }
        ensures { (result ≡ first_room self.now.free size 0 self.now.opened) × (result ≤ self.now.opened) }
    {
        for p in 0..self.opened {
            if size <= self.free[usize::from(p)] {
                return p;
            }
        }
        self.opened
    }
}
