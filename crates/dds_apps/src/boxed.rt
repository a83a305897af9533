//! A boxed application is an application.
use crate::app::{Act, App};
use crate::diary::Diary;
use dds_base::{NoMemory, Reply};

impl App for Box<dyn App + Send> {
    ghost notes = { λ b. (App-box b).notes b.value };

    ghost identity = { λ b. (App-box b).identity b.value };

    fn act(&mut self) -> Result<Act, NoMemory> {
        (**self).act()
    }

    fn hear(&mut self, reply: &Reply) {
        (**self).hear(reply);
    }

    fn diary(&self) -> &Diary {
        (**self).diary()
    }
}
