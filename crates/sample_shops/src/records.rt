//! The records of a shop's tables, and what is made of them.

use crate::asked::Asked;
use crate::books::snapshot_of;
use mrp_bill::{Bill, Shop};
use mrp_explode::explode_serial;
use mrp_item::{Inputs, Plan};
use mrp_rows::split_bundle;
use mrp_tables::Tables;
use std::alloc::Global;
use std::sync::Arc;
use std::test::Fail;

/// The records of a shop's tables, each with its line end.
#[derive(Clone, Copy)]
pub struct Records<'a> {
    /// The calendar.
    pub calendar: &'a str,
    /// The items.
    pub items: &'a str,
    /// The work centres.
    pub centres: &'a str,
    /// The stock on hand.
    pub stock: &'a str,
    /// The open receipts.
    pub receipts: &'a str,
    /// The bill lines.
    pub bills: &'a str,
    /// The operations of the routings.
    pub routings: &'a str,
    /// The firm rows, forecasts and service rows of the master schedule.
    pub master: &'a str,
    /// The calls of the desks.
    pub script: &'a str,
}

impl Records<'_> {
    // The columns of the items: from version 3 on with a minimum order quantity and an order multiple.
    fn items_header(&self) -> &'static str {
        if self.calendar.starts_with("version,3\n") {
            "[items]\nitem,class,lead,scrap,lot,size,safety,least,step\n"
        } else {
            "[items]\nitem,class,lead,scrap,lot,size,safety\n"
        }
    }

    /// The bundle of the tables.
    pub fn bundle(&self, alloc: Global) -> Result<String, Fail> {
        let mut bundle = String::new(alloc);
        bundle.push_str("[calendar]\nkey,value\n")?;
        bundle.push_str(self.calendar)?;
        bundle.push_str(self.items_header())?;
        let pieces = [
            self.items,
            "[centres]\ncentre,minutes\n",
            self.centres,
            "[stock]\nitem,onhand\n",
            self.stock,
            "[receipts]\nitem,order,date,quantity\n",
            self.receipts,
            "[bills]\nparent,component,per\n",
            self.bills,
            "[routings]\nitem,op,centre,setup,run,offset\n",
            self.routings,
            "[master]\nitem,row,date,quantity\n",
            self.master,
            "[script]\ndesk,call,item,date,quantity,number\n",
            self.script,
        ];
        for piece in pieces {
            bundle.push_str(piece)?;
        }
        Ok(bundle)
    }

    /// The tables.
    pub fn tables(&self, alloc: Global) -> Result<Tables, Fail> {
        let bundle = self.bundle(alloc)?;
        let sections = split_bundle(bundle.as_bytes())?;
        Ok(Tables::read(alloc, &sections)?)
    }

    /// The shop.
    pub fn shop(&self, alloc: Global) -> Result<Shop, Fail> {
        Ok(Bill::of(alloc, self.tables(alloc)?)?)
    }

    /// The inputs of a plan: the shop, with the bookings that stand after these calls of its desks.
    pub fn inputs(&self, alloc: Global, calls: &[(u64, Asked)]) -> Result<Arc<Inputs>, Fail> {
        let shop = Arc::new(alloc, self.shop(alloc)?)?;
        let snapshot = snapshot_of(alloc, &shop, calls)?;
        Ok(Inputs::new(alloc, shop, snapshot)?)
    }

    /// The plan of the shop after these calls of its desks.
    pub fn plan(&self, alloc: Global, calls: &[(u64, Asked)]) -> Result<Plan, Fail> {
        Ok(explode_serial(alloc, &self.inputs(alloc, calls)?)?)
    }
}
