//! A source as text: the tokens of its tree, one after another, so that it reads back as the same tree but for positions.

mod expr;
mod stmt;

use crate::unit::{Item, Param, Params, Unit};
use expr::{show_name, show_specifiers, show_struct};
use std::fmt;
use stmt::{show_block, show_init_declrs};

impl fmt::Display for Unit {
    fn fmt<W: fmt::Write>(&self, f: &mut fmt::Formatter<W>) -> fmt::Result {
        for item in self.items.as_slice() {
            show_item(item, f)?;
        }
        Ok(())
    }
}

fn show_item<W: fmt::Write>(item: &Item, f: &mut fmt::Formatter<W>) -> fmt::Result {
    match item {
        Item::Typedef(_, ty, name) => {
            f.write_str("typedef ")?;
            show_specifiers(ty, f)?;
            show_name(name, f)?;
            f.write_str(";\n")
        }
        Item::Struct(_, body) => {
            show_struct(body, f)?;
            f.write_str(";\n")
        }
        Item::Global(ty, declrs) => {
            show_specifiers(ty, f)?;
            show_init_declrs(declrs.as_slice(), f)?;
            f.write_str(";\n")
        }
        Item::Proto(ty, name, params) => {
            show_specifiers(ty, f)?;
            show_name(name, f)?;
            show_params(params, f)?;
            f.write_str(";\n")
        }
        Item::Func(ty, name, params, body) => {
            show_specifiers(ty, f)?;
            show_name(name, f)?;
            show_params(params, f)?;
            show_block(body, f)
        }
    }
}

fn show_params<W: fmt::Write>(params: &Params, f: &mut fmt::Formatter<W>) -> fmt::Result {
    match params {
        Params::Empty => f.write_str("( ) "),
        Params::Void => f.write_str("( void ) "),
        Params::List(list) => {
            f.write_str("( ")?;
            for (at, param) in list.as_slice().iter().enumerate() {
                if at > 0 {
                    f.write_str(", ")?;
                }
                show_param(param, f)?;
            }
            f.write_str(") ")
        }
    }
}

fn show_param<W: fmt::Write>(param: &Param, f: &mut fmt::Formatter<W>) -> fmt::Result {
    show_specifiers(&param.ty, f)?;
    if param.star.is_some() {
        f.write_str("* ")?;
    }
    if let Some(name) = &param.name {
        show_name(name, f)?;
    }
    Ok(())
}
